//! Finds the first event that breaks the assumptions.

ghost use Rattle.std.specs.Prelude.{◌≡◌, ◌<◌, ◌≤◌, length, take, [], count_by, IfSome, IfOk, OnOk, IsTrue, ◌↔◌};
ghost use Rattle.tt_world.specs.Headline.{AreConfigurations};
ghost use Rattle.tt_world.specs.Reply.{IsBadReply, replies_from};
ghost use Rattle.tt_audit.specs.Breaking.{IsFirstBreach};
ghost use Rattle.tt_span.specs.Time.{max_time};
ghost use Rattle.tt_audit.specs.Watch.{WatchState, IsTick, IsRoute, IsWatchable, IsRestartable, IsFusable, nothing_watched, carried_by, carried_after, paces_begun, lies_begun, paces_after, drift_seen, lies_taken, falsity_seen, watch_after, breach_seen};

use crate::paces::Pace;
use crate::packets::{Carried, Tick, put_by, taken_by, tick_of};
use crate::reports::Broken;
use std::alloc::{AllocError, Global};
use std::marker::Model;
use tt_daemon::Config;
use tt_fuse::MAX_SOURCES;
use tt_world::{Action, Breach, Event, MAX_MACHINES, Reply};

/// What is kept of the packets that were put, and of each machine in its life: which of its statements are false, and
/// the marks of its clock.
#[derive(Drop)]
pub struct Watcher {
    carried: Vec<Carried>,
    lies: [[bool; MAX_SOURCES]; MAX_MACHINES],
    paces: [Pace; MAX_MACHINES],
}

impl Model for Watcher {
    ghost use Rattle.tt_audit.specs.Watch.{WatchState};

    ghost Value = { WatchState };

    ghost view = { λ w. record { carried = w.carried.items; lies = w.lies; paces = w.paces } };
}

impl Watcher {
    /// Nothing has happened.
    pub fn new(alloc: Global) -> Watcher
        ensures { result ≡ nothing_watched }
    {
        Watcher {
            carried: Vec::new(alloc),
            lies: [[false; MAX_SOURCES]; MAX_MACHINES],
            paces: [Pace::new(); MAX_MACHINES],
        }
    }

    /// Adds an event that was not bad, with its reply, and answers the first assumption that it breaks, if it does.
    pub fn note(
        &mut self,
        configs: &[Config],
        event: &Event,
        reply: &Reply,
    ) -> Result<Option<Breach>, AllocError>
        requires { IsWatchable configs.now self.old event.now reply.now }
        ensures breach { IfOk result (λ breach. breach ≡ breach_seen configs.now self.old event.now) }
        ensures keeps { OnOk result (self.new ≡ watch_after configs.now self.old event.now reply.now) }
    {
        let tick = tick_of(self.carried.as_slice(), &event.action);
        let taken = taken_by(self.carried.as_slice(), &event.action, reply);
        let falsity = self.falsity(configs, &event.action);
        self.put(event)?;
        self.begin(&event.action);
        let drift = self.tick(configs, event.at, &tick);
        self.take(&taken);
        Ok(drift.or(falsity))
    }

    /// Keeps the packet that an event puts, if it does.
    fn put(&mut self, event: &Event) -> Result<(), AllocError>
        ensures { OnOk result (self.new ≡ record self.old { carried = carried_after self.old.carried (carried_by self.old.carried event.now.at event.now.action) }) }
    {
        if let Some(packet) = put_by(self.carried.as_slice(), event.at, &event.action) {
            self.carried.push(packet)?;
        }
        Ok(())
    }

    /// Begins the next life of the machine that an action restarts, if it does.
    fn begin(&mut self, action: &Action)
        requires { IsRestartable action.now }
        ensures { self.new ≡ record self.old { lies = lies_begun self.old.lies action.now; paces = paces_begun self.old.paces action.now } }
    {
        if let Action::Restart { machine, .. } = action {
            let place = usize::from(*machine);
            self.lies[place] = [false; MAX_SOURCES];
            self.paces[place] = Pace::new();
        }
    }

    /// Keeps the clock reading of an event at this true time, if it has one, and answers the breach if the clock breaks
    /// its drift bound by it.
    fn tick(&mut self, configs: &[Config], at: u64, tick: &Option<Tick>) -> Option<Breach>
        requires few { length configs.now ≤ 8 }
        requires time { at ≤ max_time }
        requires tick { IfSome tick.now (IsTick configs.now) }
        ensures breach { result ≡ drift_seen configs.now at self.old.paces tick.now }
        ensures keeps { self.new ≡ record self.old { paces = paces_after configs.now at self.old.paces tick.now } }
    {
        match tick {
            None => None,
            Some(tick) => {
                let place = usize::from(tick.machine);
                let ppm = configs[place].drift().ppm();
                let pace = self.paces[place];
                self.paces[place] = pace.with(ppm, tick.clock, at);
                if pace.keeps(ppm, tick.clock, at) {
                    None
                } else {
                    Some(Breach::Drift(tick.machine))
                }
            }
        }
    }

    /// If a packet was taken, keeps whether it lies, as the statement of its source.
    fn take(&mut self, taken: &Option<Carried>)
        requires { IfSome taken.now IsRoute }
        ensures { self.new ≡ record self.old { lies = lies_taken self.old.lies taken.now } }
    {
        if let Some(packet) = taken {
            self.lies[usize::from(packet.machine)][usize::from(packet.source)] = packet.is_lie;
        }
    }

    /// The machine that fuses by an action while more than f of its statements are false, if there is one.
    fn falsity(&self, configs: &[Config], action: &Action) -> Option<Breach>
        requires { IsFusable configs.now action.now }
        ensures { result ≡ falsity_seen configs.now self.now.lies action.now }
    {
        match action {
            Action::Fuse { machine, .. } => {
                let place = usize::from(*machine);
                let config = &configs[place];
                let lies = &self.lies[place];
                if false_among(lies, config.sources()) <= config.faulty() {
                    None
                } else {
                    Some(Breach::FalseStatements(*machine))
                }
            }
            _ => None,
        }
    }
}

/// How many of the first `sources` statements are false.
fn false_among(lies: &[bool], sources: usize) -> usize
    ensures { result ≡ count_by (λ lie. lie) (take sources lies.now) }
{
    lies.iter().take(sources).filter(|lie| **lie).count()
}

/// Whether a reply says that the event was bad: 1201 to 1208.
fn is_bad(reply: &Reply) -> bool
    ensures { IsTrue result ↔ IsBadReply reply.now }
{
    match reply {
        Reply::Refused(number) => (1201..=1208).contains(number),
        _ => false,
    }
}

/// The first event that breaks the assumptions, or None if they were kept. Requires: these are the replies to the
/// events on these machines.
pub fn first_broken(
    alloc: Global,
    configs: &[Config],
    events: &[Event],
    replies: &[Reply],
) -> Result<Option<Broken>, AllocError>
    requires few { length configs.now ≤ 8 }
    requires valid { AreConfigurations configs.now }
    requires replies { replies.now ≡ replies_from configs.now [] events.now }
    requires long { length replies.now ≡ length events.now }
    ensures { IfOk result (λ broken. IsFirstBreach configs.now events.now broken) }
{
    let mut watcher = Watcher::new(alloc);
    for number in 0..events.len() {
        let event = &events[number];
        let reply = &replies[number];
        if !is_bad(reply) {
            if let Some(breach) = watcher.note(configs, event, reply)? {
                return Ok(Some(Broken {
                    event: number as u64,
                    breach,
                }));
            }
        }
    }
    Ok(None)
}

//! What a machine has seen of one publication, as a run goes on.

ghost use Rattle.std.specs.Prelude.{◌≡◌, ◌<◌, ◌≤◌, ◌+◌, ◌-◌, ◌^◌, List, ◌∷◌, length, filter, reverse, IfOk};
ghost use Rattle.std.specs.List.{range_with_len};
ghost use Rattle.tt_daemon.specs.Config.{Configuration};
ghost use Rattle.tt_world.specs.declared.events.Event.{Event};
ghost use Rattle.tt_world.specs.Bad.{accepted};
ghost use Rattle.tt_world.specs.State.{StandsFor, knows};
ghost use Rattle.tt_world.specs.Reply.{reply_of};
ghost use Rattle.tt_world.specs.Config.{config_at};
ghost use Rattle.tt_twin.specs.Observation.{IsObservation, news_in};

use std::alloc::{AllocError, Global};
use tt_daemon::Config;
use tt_world::{Action, Event, Reply, World, WorldFault};

/// A worker's look at a publication.
#[derive(Clone, Copy)]
pub(crate) struct Glance {
    pub worker: u8,
    pub clock: u64,
}

/// A publication: its place among all publications that are shown, and the sources that its machine knew when it was
/// made.
#[derive(Drop)]
pub(crate) struct Made {
    pub place: usize,
    pub known: Vec<u8>,
}

/// What a machine has seen of one publication: how many publications all machines have made, this one if it was made,
/// and the looks at it since.
#[derive(Drop)]
pub(crate) struct Observation {
    pub shown: usize,
    pub made: Option<Made>,
    pub glances: Vec<Glance>,
}

/// The sources that a machine knows, of its first `sources`.
fn known_sources(
    alloc: Global,
    world: &World,
    machine: u8,
    sources: u8,
) -> Result<Vec<u8>, AllocError>
    ensures { IfOk result (λ known. (configs : List Configuration) (past : List Event) → StandsFor configs past world.now →
        known.items ≡ filter (λ i. knows configs (accepted configs past) machine i) (range_with_len 0 sources)) }
{
    let mut known = Vec::new(alloc);
    for source in 0..sources {
        if world.is_known(machine, source) {
            known.push(source)?;
        }
    }
    Ok(known)
}

/// What an event tells of the publications of a machine.
pub(crate) enum News {
    /// Nothing.
    Nothing,
    /// The machine made its publication with this number.
    Published(u8, u64),
    /// A worker of the machine looked at its publication with this number.
    Looked(u8, u64, Glance),
}

/// What an event with this reply tells of publications.
fn news_of(event: &Event, reply: &Reply) -> News
    ensures { result ≡ news_in event.now.action reply.now }
{
    match &event.action {
        Action::Fuse { machine, .. } => match reply {
            Reply::Published(number, _) => News::Published(*machine, *number),
            _ => News::Nothing,
        },
        Action::Read {
            machine,
            worker,
            clock,
            publication,
        } => match reply {
            Reply::Read(_) => News::Looked(
                *machine,
                *publication,
                Glance {
                    worker: *worker,
                    clock: *clock,
                },
            ),
            _ => News::Nothing,
        },
        _ => News::Nothing,
    }
}

impl Observation {
    /// Goes on by one event that tells this. The world stands for the run that ends with it.
    fn see(
        &mut self,
        alloc: Global,
        world: &World,
        config: &Config,
        machine: u8,
        publication: u64,
        news: News,
    ) -> Result<(), AllocError>
        requires { self.old.shown < 2 ^ 64 - 1 }
        ensures seen { IfOk result (λ _. (configs : List Configuration) (past : List Event) (event : Event) → config_at configs machine ≡ config.now →
            StandsFor configs (event ∷ past) world.now → news ≡ news_in event.action (reply_of configs past event) →
            IsObservation configs (accepted configs past) machine publication self.old →
            IsObservation configs (accepted configs (event ∷ past)) machine publication self.new) }
        ensures few { self.new.shown ≤ self.old.shown + 1 }
    {
        match news {
            News::Nothing => {}
            News::Published(own, number) => {
                let place = self.shown;
                self.shown += 1;
                if own == machine && number == publication {
                    let known = known_sources(alloc, world, machine, config.sources() as u8)?;
                    self.made = Some(Made { place, known });
                    self.glances = Vec::new(alloc);
                }
            }
            News::Looked(own, number, glance) => {
                if own == machine && number == publication {
                    self.glances.push(glance)?;
                }
            }
        }
        Ok(())
    }
}

/// What a machine has seen of one publication after these events.
pub(crate) fn observation_of(
    alloc: Global,
    configs: &[Config],
    events: &[Event],
    machine: u8,
    publication: u64,
) -> Result<Observation, WorldFault>
    requires { machine < length configs.now }
    ensures { IfOk result (λ observation. IsObservation configs.now (accepted configs.now (reverse events.now)) machine publication observation) }
{
    let mut world = World::new(alloc, configs)?;
    let mut observation = Observation {
        shown: 0,
        made: None,
        glances: Vec::new(alloc),
    };
    for event in events {
        let reply = world.step(event)?;
        let news = news_of(event, &reply);
        observation.see(
            alloc,
            &world,
            &configs[usize::from(machine)],
            machine,
            publication,
            news,
        )?;
    }
    Ok(observation)
}

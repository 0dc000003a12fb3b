//! The daemon: one round after the other, and what is logged, shown and shared after each.

ghost use Rattle.std.specs.Prelude.{◌≡◌, ◌≤◌, List, [], map, None};
ghost use Rattle.tt_publish.specs.Reading.{fused_span_of};
ghost use Rattle.tt_consistency.specs.Calls.{AreInTurn, RiseIn, RoundsCall, kept_after};
ghost use Rattle.tt_consistency.specs.Coming.{AreHeard};
ghost use Rattle.tt_server.specs.Break.{Compares, EndsBy, GoesRound, LooksAtHost, MayBreak, Settles, broken_by, came_in, last_with, seen_in, with_came};
ghost use Rattle.tt_server.specs.Name.{IsNews};
ghost use Rattle.tt_status.specs.Reason.{reason_told};
ghost use Rattle.tt_status.specs.declared.breaks.BreakReason.TheVariants.{Disrupted, Slept};
ghost use Rattle.tt_telemetry.specs.Records.{Shows, published_in};
ghost use Rattle.tt_server.specs.Round.{MakesCall, MakesHeardCall, kept_with, renewal_after};
ghost use Rattle.tt_telemetry.specs.Status.{seals_of, unsent_of};

use crate::breaks::{broken_by, event_of_unmet};
use crate::evidence::{keep_break, published_in, show_evidence};
use crate::links::socket_again;
use crate::names::{Lookups, NO_LOOKUPS, NameTable, has_missed, is_found_again, news_of};
use crate::owns::Reach;
use crate::paces::{pause_of, renewal_after, turns_of, waits_on};
use crate::sharers::Shares;
use crate::states::{ThreadContext, say, say_some};
use crate::watches::{HostWatch, event_of_slewing, shared_by};
use std::alloc::Global;
use std::fs::{File, Files};
use std::net::{Net, SocketAddr, UdpSocket};
use std::sync::{Arc, Wait};
use std::time::Clock as SystemClock;
use tt_clock::MachineClock;
use tt_daemon::{Daemon, Fused, MAX_SOURCES};
use tt_health::{breaks_recorded, moment_recorded};
use tt_host::{HostClocks, Sleep};
use tt_publish::{Clock, Teller};
use tt_rounds::{NodeFault, RoundLink, RoundReport, Rounds, RoundsPlan, report_rounds};
use tt_settings::OnBreak;
use tt_sharing::{HANGS, RoundTerms, period_of, withdrawn};
use tt_status::{BreakReason, LogEvent};
use tt_telemetry::{
    Account, Machine, NO_SEALS, Notices, RoundRecords, Shown, SourceSeals, Totals, UnsentPackets,
    agreeing_sources, fresh_answers, fusion_event, has_failed_after, is_refused_after, is_stale,
    is_wide, needed_by, records_of, resumed_event, sleep_event, stale_event, status_of,
    stood_still, unmet_of, width_event, width_shown,
};

/// The link to the masters, as the daemon's thread has it.
#[derive(Drop)]
pub(crate) struct Polled<'a, R> {
    pub(crate) link: RoundLink<'a, R, UdpSocket>,
    pub(crate) reach: Reach,
    /// What is found of the names of masters, if one has a name.
    pub(crate) table: Option<Arc<NameTable, Global>>,
}

/// The state of the daemon's thread.
#[derive(Drop)]
pub(crate) struct Poller<'a, R> {
    daemon: Daemon,
    polled: Polled<'a, R>,
    /// How many lookups of names were made when it last looked, and what they had found.
    changes: u64,
    lookups: [Lookups; MAX_SOURCES],
    /// What the last round did.
    report: RoundReport,
    totals: Totals,
    /// The last publication.
    shown: Option<Shown>,
    share: Shares,
    /// The pause before the socket is made anew, in nanoseconds; 0 if it is not.
    renewal: u64,
    /// For each source, how many packets to it could not be sent so far.
    unsent: [u64; MAX_SOURCES],
    /// What is known of the seals of the packets from each source.
    seals: [SourceSeals; MAX_SOURCES],
    /// After how many rounds it found that a packet of a stranger had come.
    strangers: u64,
    /// What it has noticed so far.
    notices: Notices,
    host: HostWatch<'a>,
    /// What the clock showed at the end of the last round, in nanoseconds.
    ended: Option<u64>,
    /// The last publication, with its certificate.
    last: Option<Fused>,
    /// Why it knows that an assumption is broken, if it does, and has to end.
    broken: Option<BreakReason>,
}

impl<'a, R> Poller<'a, R> {
    /// The state of the daemon's thread at its start.
    pub(crate) fn new(
        daemon: Daemon,
        polled: Polled<'a, R>,
        share: Shares,
        vmclock: Option<&'a str>,
    ) -> Poller<'a, R>
        ensures daemon { result.daemon ≡ daemon }
        ensures wire { result.polled.link.hearing.wire ≡ polled.entry.link.hearing.wire }
        ensures shown { result.shown ≡ None }
        ensures broken { result.broken ≡ None }
    {
        Poller {
            daemon,
            polled,
            changes: 0,
            lookups: [NO_LOOKUPS; MAX_SOURCES],
            report: RoundReport::new(),
            totals: Totals::new(),
            shown: None,
            share,
            renewal: 0,
            unsent: [0; MAX_SOURCES],
            seals: [NO_SEALS; MAX_SOURCES],
            strangers: 0,
            notices: Notices::new(),
            host: HostWatch::new(vmclock),
            ended: None,
            last: None,
            broken: None,
        }
    }

    /// Ends the thread that looks up names, if there is one. It is not waited for.
    pub(crate) fn end_names(&self) {
        if let Some(table) = &self.polled.table {
            table.end();
        }
    }

    /// Why it knows that an assumption is broken, if it does, and has to end.
    pub(crate) fn broken(&self) -> Option<BreakReason>
        ensures value { result ≡ self.now.broken }
    {
        self.broken
    }
}

impl<'a, R: Wait + SystemClock> Poller<'a, R> {
    /// Waits until what it shared last is written, for at most 200 ms.
    pub(crate) fn end_sharing(&self, rt: &R) {
        self.share.end(rt);
    }
}

/// What the clock shows, or the last time that it showed if it can't be read.
fn now_of<R: SystemClock>(clock: &mut MachineClock<'_, R>) -> u64
    ensures rises { clock.old.last ≤ clock.new.last }
    ensures shown { result ≡ clock.new.last }
{
    match clock.read() {
        Ok(now) => now,
        Err(_) => clock.last(),
    }
}

/// Makes one round. It is one call of `report_rounds`.
fn round<R: Wait + SystemClock>(
    context: ThreadContext<'_, R>,
    poller: &mut Poller<'_, R>,
    clock: &mut MachineClock<'_, R>,
    teller: &mut Teller,
) -> Result<Rounds, NodeFault>
    ensures call { MakesCall (kept_with poller.old.daemon teller.old.items) (kept_with poller.new.daemon teller.new.items) clock.old.last clock.new.last }
    ensures heard { MakesHeardCall poller.old.polled.link.hearing.wire (kept_with poller.old.daemon teller.old.items) (kept_with poller.new.daemon teller.new.items) clock.old.last clock.new.last }
    ensures source { teller.new.source ≡ teller.old.source }
    ensures wire { poller.new.polled.link.hearing.wire ≡ poller.old.polled.link.hearing.wire }
    ensures published { map fused_span_of teller.new.items ≡ with_came (map fused_span_of teller.old.items) (came_in result poller.new.report.fusion) }
    ensures shown { poller.new.shown ≡ poller.old.shown }
    ensures broken { poller.new.broken ≡ poller.old.broken }
{
    let plan = RoundsPlan {
        rounds: 1,
        turns: turns_of(poller.daemon.config().sources()),
    };
    report_rounds(
        context.rt,
        &mut poller.daemon,
        &mut poller.polled.link,
        clock,
        teller,
        plan,
        &mut poller.report,
    )
}

/// For each source, how many packets to it could not be sent so far.
fn unsent_by<R: SystemClock>(link: &RoundLink<'_, R, UdpSocket>) -> [u64; MAX_SOURCES]
    ensures value { result ≡ unsent_of link.now.hearing.table.unsent }
{
    let mut unsent = [0; MAX_SOURCES];
    for source in 0..MAX_SOURCES {
        unsent[source] = link.unsent(source as u8);
    }
    unsent
}

/// What is known of the seals of the packets from each source so far.
fn seals_by<R: SystemClock>(link: &RoundLink<'_, R, UdpSocket>) -> [SourceSeals; MAX_SOURCES]
    ensures value { result ≡ seals_of link.now.hearing.table.openings }
{
    let mut seals = [NO_SEALS; MAX_SOURCES];
    for source in 0..MAX_SOURCES {
        seals[source] = SourceSeals {
            unopened: link.unopened(source as u8),
            key: link.opened(source as u8),
        };
    }
    seals
}

/// Logs what is new of the name of a source, and that it has an address again. Answers its address, if that is new.
fn say_lookups<R: Wait + SystemClock>(
    context: ThreadContext<'_, R>,
    source: u64,
    before: &Lookups,
    after: &Lookups,
) -> Option<SocketAddr>
    ensures value { IsNews before.now.address after.now.address result }
{
    if has_missed(before, after) {
        say(context, LogEvent::SourceUnresolved { source });
    }
    let news = news_of(before, after);
    let told = if is_found_again(before, after) {
        after.address
    } else {
        news
    };
    if let Some(address) = told {
        say(context, LogEvent::SourceResolved { source, address });
    }
    news
}

/// Takes the addresses that were found of names meanwhile, and logs what is new of them. What looks up names is told when
/// the last answers came.
fn hear_names<R: Wait + SystemClock>(context: ThreadContext<'_, R>, poller: &mut Poller<'_, R>)
    ensures same { poller.new.daemon ≡ poller.old.daemon }
    ensures wire { poller.new.polled.link.hearing.wire ≡ poller.old.polled.link.hearing.wire }
    ensures shown { poller.new.shown ≡ poller.old.shown }
    ensures broken { poller.new.broken ≡ poller.old.broken }
{
    let Some(table) = &poller.polled.table else {
        return;
    };
    table.hear(&poller.notices.answers);
    let changes = table.changes();
    if changes == poller.changes {
        return;
    }
    let found = table.found(context.rt);
    poller.changes = changes;
    for source in 0..MAX_SOURCES {
        let (before, after) = (poller.lookups[source], found[source]);
        let news = say_lookups(context, source as u64, &before, &after);
        if news.is_some() {
            poller.polled.link.set_address(source as u8, news);
        }
    }
    poller.lookups = found;
}

/// Counts and logs the last packet of a stranger, if one has come since the last round, and takes what is known of the
/// seals of packets.
fn hear_packets<R: Wait + SystemClock>(context: ThreadContext<'_, R>, poller: &mut Poller<'_, R>)
    ensures same { poller.new.daemon ≡ poller.old.daemon }
    ensures wire { poller.new.polled.link.hearing.wire ≡ poller.old.polled.link.hearing.wire }
    ensures shown { poller.new.shown ≡ poller.old.shown }
    ensures broken { poller.new.broken ≡ poller.old.broken }
{
    poller.seals = seals_by(&poller.polled.link);
    if let Some(address) = poller.polled.link.stranger() {
        poller.strangers = poller.strangers.saturating_add(1);
        say(context, LogEvent::Stranger { address });
    }
}

/// Takes what a round has shown of packets, and what was found of names meanwhile.
fn hear_all<R: Wait + SystemClock>(context: ThreadContext<'_, R>, poller: &mut Poller<'_, R>)
    ensures same { poller.new.daemon ≡ poller.old.daemon }
    ensures wire { poller.new.polled.link.hearing.wire ≡ poller.old.polled.link.hearing.wire }
    ensures shown { poller.new.shown ≡ poller.old.shown }
    ensures broken { poller.new.broken ≡ poller.old.broken }
{
    hear_packets(context, poller);
    hear_names(context, poller);
}

/// All records of the round that was made.
fn records<R: SystemClock>(
    context: ThreadContext<'_, R>,
    poller: &Poller<'_, R>,
    did: &Result<Rounds, NodeFault>,
    unsent: [u64; MAX_SOURCES],
) -> RoundRecords
    ensures in_range { result.events.count ≤ 66 }
    ensures shown { Shows (published_in did.now poller.now.report.fusion) result.shown }
{
    let life = context.server.life;
    let unsent = UnsentPackets {
        before: poller.unsent,
        after: unsent,
    };
    let terms = RoundTerms {
        config: life.config,
        epoch: life.epoch,
        pauses: life.pauses,
        max_width: life.max_width,
    };
    let needed = match needed_by(&poller.notices.answers, &life.config) {
        Some(clock) => clock,
        None => 0,
    };
    records_of(did, &poller.report, &unsent, &poller.totals, &terms, needed)
}

/// From now on no session is given a reading, a stamp or a release, and the shared file says that nothing is published.
fn cut_off<R: Wait + SystemClock + Files<File = File>>(
    context: ThreadContext<'_, R>,
    poller: &mut Poller<'_, R>,
    now: u64,
)
    ensures same { poller.new.daemon ≡ poller.old.daemon }
    ensures wire { poller.new.polled.link.hearing.wire ≡ poller.old.polled.link.hearing.wire }
    ensures totals { poller.new.totals ≡ poller.old.totals }
    ensures renewal { poller.new.renewal ≡ poller.old.renewal }
    ensures shown { poller.new.shown ≡ poller.old.shown }
    ensures broken { poller.new.broken ≡ poller.old.broken }
{
    let server = context.server;
    server.listeners.break_off();
    let nothing = withdrawn(
        server.life.epoch,
        poller.totals.published,
        server.life.config.drift(),
    );
    poller.share.put(context.rt, &nothing, now);
}

/// A sign that an assumption is broken: it is counted and logged. Unless the settings say that it is only logged, from now
/// on no session is given a reading, a stamp or a release, the shared file says that nothing is published, and the machine
/// ends. If there is more than one sign in a round, the last one is the reason.
fn break_off<R: Wait + SystemClock + Files<File = File>>(
    context: ThreadContext<'_, R>,
    poller: &mut Poller<'_, R>,
    event: LogEvent,
    now: u64,
)
    ensures same { poller.new.daemon ≡ poller.old.daemon }
    ensures wire { poller.new.polled.link.hearing.wire ≡ poller.old.polled.link.hearing.wire }
    ensures totals { poller.new.totals ≡ poller.old.totals }
    ensures renewal { poller.new.renewal ≡ poller.old.renewal }
    ensures shown { poller.new.shown ≡ poller.old.shown }
    ensures broken { poller.new.broken ≡ broken_by context.entry.server.now.life.on_break (reason_told event) poller.old.broken }
{
    let on_break = context.server.life.on_break;
    if on_break != OnBreak::Warn {
        cut_off(context, poller, now);
    }
    poller.broken = broken_by(on_break, &event, poller.broken);
    poller.notices.breaks = poller.notices.breaks.saturating_add(1);
    say(context, event);
}

/// Looks whether what a round shows meets the last publication.
fn compare<R: Wait + SystemClock + Files<File = File>>(
    context: ThreadContext<'_, R>,
    poller: &mut Poller<'_, R>,
    shown: &Option<Shown>,
    published: &Option<Fused>,
    now: u64,
)
    ensures same { poller.new.daemon ≡ poller.old.daemon }
    ensures wire { poller.new.polled.link.hearing.wire ≡ poller.old.polled.link.hearing.wire }
    ensures shown { poller.new.shown ≡ poller.old.shown }
    ensures broken { Compares context.entry.server.now.life.on_break context.entry.server.now.life.config.drift (seen_in poller.old.shown) (seen_in shown.now) poller.old.broken poller.new.broken }
    ensures totals { poller.new.totals ≡ poller.old.totals }
    ensures renewal { poller.new.renewal ≡ poller.old.renewal }
{
    let drift = context.server.life.config.drift();
    let Some(unmet) = unmet_of(&poller.shown, shown, drift) else {
        return;
    };
    break_off(context, poller, event_of_unmet(&unmet), now);
    keep_break(context, &poller.last, published);
}

/// Looks whether the host slept.
fn look_at_sleep<R: Wait + SystemClock + HostClocks + Files<File = File>>(
    context: ThreadContext<'_, R>,
    poller: &mut Poller<'_, R>,
    now: u64,
)
    ensures same { poller.new.daemon ≡ poller.old.daemon }
    ensures wire { poller.new.polled.link.hearing.wire ≡ poller.old.polled.link.hearing.wire }
    ensures totals { poller.new.totals ≡ poller.old.totals }
    ensures renewal { poller.new.renewal ≡ poller.old.renewal }
    ensures shown { poller.new.shown ≡ poller.old.shown }
    ensures broken { MayBreak context.entry.server.now.life.on_break Slept poller.old.broken poller.new.broken }
{
    let Sleep::Slept(slept) = poller.host.sleep.look(context.rt) else {
        return;
    };
    poller.notices.slept = poller.notices.slept.saturating_add(slept);
    break_off(context, poller, LogEvent::HostSlept { slept }, now);
}

/// Looks whether a guest was disrupted.
fn look_at_guest<R: Wait + SystemClock + HostClocks + Files<File = File>>(
    context: ThreadContext<'_, R>,
    poller: &mut Poller<'_, R>,
    now: u64,
)
    ensures same { poller.new.daemon ≡ poller.old.daemon }
    ensures wire { poller.new.polled.link.hearing.wire ≡ poller.old.polled.link.hearing.wire }
    ensures totals { poller.new.totals ≡ poller.old.totals }
    ensures renewal { poller.new.renewal ≡ poller.old.renewal }
    ensures shown { poller.new.shown ≡ poller.old.shown }
    ensures broken { MayBreak context.entry.server.now.life.on_break Disrupted poller.old.broken poller.new.broken }
{
    let Some(path) = poller.host.vmclock else {
        return;
    };
    if !poller.host.guest.look(context.rt, path) {
        return;
    }
    break_off(context, poller, LogEvent::GuestDisrupted, now);
}

/// Looks whether the host slept, and then whether a guest was disrupted.
fn look_at_host<R: Wait + SystemClock + HostClocks + Files<File = File>>(
    context: ThreadContext<'_, R>,
    poller: &mut Poller<'_, R>,
    now: u64,
)
    ensures same { poller.new.daemon ≡ poller.old.daemon }
    ensures wire { poller.new.polled.link.hearing.wire ≡ poller.old.polled.link.hearing.wire }
    ensures totals { poller.new.totals ≡ poller.old.totals }
    ensures renewal { poller.new.renewal ≡ poller.old.renewal }
    ensures shown { poller.new.shown ≡ poller.old.shown }
    ensures broken { LooksAtHost context.entry.server.now.life.on_break poller.old.broken poller.new.broken }
    ensures unseen { poller.new.notices.sleep_unseen ≡ poller.new.host.sleep }
{
    look_at_sleep(context, poller, now);
    look_at_guest(context, poller, now);
    let is_unseen = poller.host.sleep.is_blind();
    say_some(context, sleep_event(poller.notices.sleep_unseen, is_unseen));
    poller.notices.sleep_unseen = is_unseen;
}

/// Looks how fast `CLOCK_MONOTONIC` goes, if the machine's clock is another. It is logged when that clock begins to go faster or
/// slower than the settings allow, and when that is over.
fn look_at_slewed<R: Wait + SystemClock + HostClocks>(
    context: ThreadContext<'_, R>,
    poller: &mut Poller<'_, R>,
)
    ensures same { poller.new.daemon ≡ poller.old.daemon }
    ensures wire { poller.new.polled.link.hearing.wire ≡ poller.old.polled.link.hearing.wire }
    ensures shown { poller.new.shown ≡ poller.old.shown }
    ensures broken { poller.new.broken ≡ poller.old.broken }
    ensures totals { poller.new.totals ≡ poller.old.totals }
    ensures renewal { poller.new.renewal ≡ poller.old.renewal }
    ensures told { poller.new.notices.slewing ≡ poller.new.host.slew.slewing }
{
    let life = &context.server.life;
    let news = poller
        .host
        .look_at_slewed(context.rt, life.clock, life.slew);
    poller.notices.slewing = poller.host.slew.slewing;
    if let Some(event) = event_of_slewing(news, &poller.host.slew.slewing, life.slew) {
        say(context, event);
    }
}

/// Looks how wide a reading is before a round, when the clock shows `now`. It is logged if that is wider than `max_width`, so that
/// sessions refuse, and when that is over.
fn look_at_width<R: Wait + SystemClock>(
    context: ThreadContext<'_, R>,
    poller: &mut Poller<'_, R>,
    now: u64,
)
    ensures same { poller.new.daemon ≡ poller.old.daemon }
    ensures wire { poller.new.polled.link.hearing.wire ≡ poller.old.polled.link.hearing.wire }
    ensures shown { poller.new.shown ≡ poller.old.shown }
    ensures broken { poller.new.broken ≡ poller.old.broken }
{
    let life = &context.server.life;
    let width = width_shown(&poller.shown, life.config.drift(), now);
    let was_wide = poller.notices.troubles.wide;
    say_some(context, width_event(was_wide, width, life.max_width));
    poller.notices.troubles.wide = is_wide(width, life.max_width);
}

/// Looks whether the machine stood still before the end of a round, at which the clock shows `now`. It is logged.
fn look_back<R: Wait + SystemClock>(
    context: ThreadContext<'_, R>,
    poller: &mut Poller<'_, R>,
    now: u64,
)
    ensures same { poller.new.daemon ≡ poller.old.daemon }
    ensures wire { poller.new.polled.link.hearing.wire ≡ poller.old.polled.link.hearing.wire }
    ensures report { poller.new.report ≡ poller.old.report }
    ensures shown { poller.new.shown ≡ poller.old.shown }
    ensures broken { poller.new.broken ≡ poller.old.broken }
{
    let period = period_of(&context.server.life.pauses);
    if let Some(event) = stood_still(poller.ended, now, poller.renewal, period) {
        say(context, event);
    }
    poller.ended = Some(now);
}

/// Counts a round after which fewer than n - f sources have answered within three periods, and logs it once something is
/// published, and when it is over.
fn count_stale<R: Wait + SystemClock>(
    context: ThreadContext<'_, R>,
    poller: &mut Poller<'_, R>,
    now: u64,
)
    ensures same { poller.new.daemon ≡ poller.old.daemon }
    ensures wire { poller.new.polled.link.hearing.wire ≡ poller.old.polled.link.hearing.wire }
    ensures shown { poller.new.shown ≡ poller.old.shown }
    ensures broken { poller.new.broken ≡ poller.old.broken }
    ensures totals { poller.new.totals ≡ poller.old.totals }
    ensures renewal { poller.new.renewal ≡ poller.old.renewal }
{
    let life = &context.server.life;
    let config = &life.config;
    let period = period_of(&life.pauses);
    let is_stale = is_stale(needed_by(&poller.notices.answers, config), period, now);
    if is_stale {
        poller.notices.stale_rounds = poller.notices.stale_rounds.saturating_add(1);
    }
    let was_told = poller.notices.troubles.stale;
    let is_told = is_stale && poller.totals.published > 0;
    let answered = fresh_answers(&poller.notices.answers, config.sources(), period, now);
    let needed = (config.sources() - config.faulty()) as u64;
    say_some(context, stale_event(was_told, is_told, answered, needed));
    poller.notices.troubles.stale = is_told;
}

/// Logs which troubles are over with a round of these records: suspects that agree again, refused fusions and failed rounds.
fn say_ends<R: Wait + SystemClock>(
    context: ThreadContext<'_, R>,
    poller: &mut Poller<'_, R>,
    records: &RoundRecords,
)
    ensures same { poller.new.daemon ≡ poller.old.daemon }
    ensures wire { poller.new.polled.link.hearing.wire ≡ poller.old.polled.link.hearing.wire }
    ensures shown { poller.new.shown ≡ poller.old.shown }
    ensures broken { poller.new.broken ≡ poller.old.broken }
    ensures totals { poller.new.totals ≡ poller.old.totals }
    ensures renewal { poller.new.renewal ≡ poller.old.renewal }
{
    let agreeing = agreeing_sources(&poller.shown, &records.shown);
    for source in agreeing.as_slice() {
        let source = u64::from(*source);
        say(context, LogEvent::SourceAgrees { source });
    }
    let outcome = &records.outcome;
    let troubles = &mut poller.notices.troubles;
    say_some(context, fusion_event(troubles.refused, outcome));
    say_some(context, resumed_event(troubles.failed, outcome));
    troubles.refused = is_refused_after(troubles.refused, outcome);
    troubles.failed = has_failed_after(troubles.failed, outcome);
}

/// Hands on the records of a round: logs its events and shares its publication when the clock shows `now`, and keeps what
/// it counts and shows. After the first publication clients are served.
fn hand_on<R: Wait + SystemClock + Files<File = File>>(
    context: ThreadContext<'_, R>,
    poller: &mut Poller<'_, R>,
    records: RoundRecords,
    now: u64,
)
    requires in_range { records.events.count ≤ 66 }
    ensures same { poller.new.daemon ≡ poller.old.daemon }
    ensures wire { poller.new.polled.link.hearing.wire ≡ poller.old.polled.link.hearing.wire }
    ensures shown { seen_in poller.new.shown ≡ last_with (seen_in poller.old.shown) (seen_in records.shown) }
    ensures broken { poller.new.broken ≡ poller.old.broken }
    ensures totals { poller.new.totals ≡ records.totals }
    ensures renewal { poller.new.renewal ≡ renewal_after records.link_failed poller.old.renewal }
{
    let RoundRecords {
        events,
        totals,
        shown,
        span,
        link_failed,
        outcome: _,
    } = records;
    for event in events.as_slice() {
        say(context, *event);
    }
    if let Some(span) = span {
        if poller.broken.is_none() {
            let span = shared_by(&span, &poller.host.base, &context.server.life);
            poller.share.put(context.rt, &span, now);
        }
    }
    if poller.totals.published == 0 && totals.published > 0 {
        context.server.listeners.open();
    }
    poller.totals = totals;
    poller.renewal = renewal_after(link_failed, poller.renewal);
    if let Some(shown) = shown {
        poller.shown = Some(shown);
    }
}

/// Notes what a round published, and hands on its evidence.
fn note_published<R: Wait + SystemClock>(
    context: ThreadContext<'_, R>,
    poller: &mut Poller<'_, R>,
    published: Option<Fused>,
)
    ensures same { poller.new.daemon ≡ poller.old.daemon }
    ensures wire { poller.new.polled.link.hearing.wire ≡ poller.old.polled.link.hearing.wire }
    ensures shown { poller.new.shown ≡ poller.old.shown }
    ensures broken { poller.new.broken ≡ poller.old.broken }
{
    let Some(fused) = published else {
        return;
    };
    poller.notices.measure(&fused.span());
    poller.notices.track(&poller.report.sources, &fused);
    show_evidence(context, &fused);
    poller.last = Some(fused);
}

/// Does all that follows a round, except the pause, when the clock shows `now`. What breaks an assumption is noticed
/// first.
fn settle<R: Wait + SystemClock + HostClocks + Files<File = File>>(
    context: ThreadContext<'_, R>,
    poller: &mut Poller<'_, R>,
    did: &Result<Rounds, NodeFault>,
    now: u64,
)
    ensures same { poller.new.daemon ≡ poller.old.daemon }
    ensures wire { poller.new.polled.link.hearing.wire ≡ poller.old.polled.link.hearing.wire }
    ensures shown { seen_in poller.new.shown ≡ last_with (seen_in poller.old.shown) (came_in did.now poller.old.report.fusion) }
    ensures broken { Settles context.entry.server.now.life.on_break context.entry.server.now.life.config.drift (seen_in poller.old.shown) (came_in did.now poller.old.report.fusion) poller.old.broken poller.new.broken }
{
    look_back(context, poller, now);
    poller.notices.hear(&poller.report.sources);
    let unsent = unsent_by(&poller.polled.link);
    let records = records(context, poller, did, unsent);
    let published = published_in(did, &poller.report);
    compare(context, poller, &records.shown, &published, now);
    look_at_host(context, poller, now);
    look_at_slewed(context, poller);
    poller.unsent = unsent;
    say_ends(context, poller, &records);
    hand_on(context, poller, records, now);
    count_stale(context, poller, now);
    note_published(context, poller, published);
}

/// Hands the status to the reporter. It is logged once if a try to write the shared file hangs.
fn show<R: Wait + SystemClock + Files<File = File>>(
    context: ThreadContext<'_, R>,
    poller: &Poller<'_, R>,
    clock: &mut MachineClock<'_, R>,
)
    ensures rises { clock.old.last ≤ clock.new.last }
{
    let server = context.server;
    let now = now_of(clock);
    if poller.share.tells_hang(now) {
        say(context, LogEvent::SharingEnded { number: HANGS });
    }
    let machine = Machine {
        number: u64::from(server.life.machine),
        epoch: server.life.epoch,
        config: server.life.config,
        known: poller.daemon.known() as u64,
        sharing: poller.share.is_written(now),
        broken_lives: breaks_recorded(server.last_break),
        last_break: moment_recorded(server.last_break),
    };
    let account = Account {
        totals: &poller.totals,
        shown: &poller.shown,
        notices: &poller.notices,
        unsent: &poller.unsent,
        seals: &poller.seals,
        strangers: poller.strangers,
    };
    let status = status_of(&machine, &account, &server.work(), now);
    server.reporter.show(context.rt, status);
}

/// Makes one round and does all that follows it, except the pause.
fn go_round<R: Wait + SystemClock + HostClocks + Files<File = File>>(
    context: ThreadContext<'_, R>,
    poller: &mut Poller<'_, R>,
    clock: &mut MachineClock<'_, R>,
    teller: &mut Teller,
)
    ensures heard { MakesHeardCall poller.old.polled.link.hearing.wire (kept_with poller.old.daemon teller.old.items) (kept_with poller.new.daemon teller.new.items) clock.old.last clock.new.last }
    ensures source { teller.new.source ≡ teller.old.source }
    ensures wire { poller.new.polled.link.hearing.wire ≡ poller.old.polled.link.hearing.wire }
    ensures breaks { GoesRound context.entry.server.now.life.on_break context.entry.server.now.life.config.drift (map fused_span_of teller.old.items) (map fused_span_of teller.new.items) (seen_in poller.old.shown) (seen_in poller.new.shown) poller.old.broken poller.new.broken }
{
    let server = context.server;
    hear_names(context, poller);
    server.reporter.busy(now_of(clock).max(1));
    look_at_width(context, poller, clock.last());
    let did = round(context, poller, clock, teller);
    server.reporter.idle();
    settle(context, poller, &did, clock.last());
    hear_all(context, poller);
    show(context, poller, clock);
}

/// Makes the socket of the polls anew if it failed in the last round. If this fails too, the old one is kept, and the
/// next round tells.
fn renew<R: Wait + SystemClock + Net>(context: ThreadContext<'_, R>, poller: &mut Poller<'_, R>)
    ensures same { poller.new.daemon ≡ poller.old.daemon }
    ensures wire { poller.new.polled.link.hearing.wire ≡ poller.old.polled.link.hearing.wire }
    ensures shown { poller.new.shown ≡ poller.old.shown }
    ensures broken { poller.new.broken ≡ poller.old.broken }
{
    if poller.renewal == 0 {
        return;
    }
    let Ok(socket) = socket_again(context.rt, poller.polled.reach) else {
        return;
    };
    if poller.polled.link.renew(socket).is_ok() {
        say(
            context,
            LogEvent::SocketRenewed {
                number: u64::from(NodeFault::LinkFailed.number()),
                pause: poller.renewal,
            },
        );
    }
}

/// When the machine ends, shares that the last publication is no longer fresh; after a break nothing is published.
fn end<R: Wait + SystemClock + Files<File = File>>(
    context: ThreadContext<'_, R>,
    poller: &mut Poller<'_, R>,
    clock: &mut MachineClock<'_, R>,
)
    ensures same { poller.new.daemon ≡ poller.old.daemon }
    ensures wire { poller.new.polled.link.hearing.wire ≡ poller.old.polled.link.hearing.wire }
    ensures shown { poller.new.shown ≡ poller.old.shown }
    ensures broken { poller.new.broken ≡ poller.old.broken }
    ensures rises { clock.old.last ≤ clock.new.last }
{
    if poller.broken.is_some() {
        return;
    }
    let now = now_of(clock);
    poller.share.put_end(context.rt, now);
}

/// Makes the rounds of the daemon until the machine ends, each before a pause, or until it knows that an assumption is
/// broken. After a round in which the socket failed,
/// it is made anew after the pause. Requires: nothing is published yet.
pub(crate) fn run_daemon<R: Wait + SystemClock + HostClocks + Files<File = File> + Net>(
    context: ThreadContext<'_, R>,
    poller: &mut Poller<'_, R>,
    clock: &mut MachineClock<'_, R>,
    teller: &mut Teller,
)
    requires nothing { teller.old.items ≡ [] }
    requires none_shown { poller.old.shown ≡ None }
    requires unbroken { poller.old.broken ≡ None }
    // The rounds were calls one after another, and what they left of the daemon and the publications is what there is.
    // No reading of the clock in them is below one before it, and each packet in them was handed up over the wire.
    ensures calls { (calls : List RoundsCall) × AreInTurn (record { daemon = poller.old.daemon; published = [] }) calls
        × (kept_after (record { daemon = poller.old.daemon; published = [] }) calls ≡ record { daemon = poller.new.daemon; published = map fused_span_of teller.new.items })
        × RiseIn clock.old.last calls clock.new.last × AreHeard poller.old.polled.link.hearing.wire calls }
    ensures source { teller.new.source ≡ teller.old.source }
    ensures wire { poller.new.polled.link.hearing.wire ≡ poller.old.polled.link.hearing.wire }
    // Each publication met the one before it, or it was the last, and the life ends because of that.
    ensures breaks { EndsBy context.entry.server.now.life.on_break context.entry.server.now.life.config.drift (map fused_span_of teller.new.items) poller.new.broken }
{
    let (rt, server) = (context.rt, context.server);
    let began = now_of(clock);
    look_at_host(context, poller, began);
    look_at_slewed(context, poller);
    for _ in rt.forever() {
        go_round(context, poller, clock, teller);
        if poller.broken.is_none() {
            let waits = waits_on(&poller.totals, began, clock.last());
            server.rest(rt, pause_of(poller.renewal, waits, server.life.pauses.poll));
        }
        if poller.broken.is_some() || server.has_ended() {
            end(context, poller, clock);
            return;
        }
        renew(context, poller);
    }
    unreachable!()
}

//! A daemon's rounds: it polls its sources, takes their answers, fuses what it knows, and publishes the fusion.

ghost use Rattle.std.specs.Prelude.{◌≡◌, ℕ, ◌+◌, ◌<◌, ◌≤◌, ◌^◌, List, length, Option, Some, None, Result, IfOk, IfErr, IfSome, OnOk, OnErr, IsErrOf};
ghost use Rattle.tt_rounds.specs.Link.{Exchange, Receive, came_as};
ghost use Rattle.tt_rounds.specs.Counting.{FailsBy};
ghost use Rattle.tt_rounds.specs.Fault.{IsDeviceFault, IsRoundsFault};
ghost use Rattle.tt_rounds.specs.Fusing.{Fusion, fusions_in, Grows};
ghost use Rattle.tt_rounds.specs.Course.{Stand, Part, poll_at, poll_all as polls_all, each_below, turn as turn_of, fuse_at as fuses_at, round_of, rounds_of};
ghost use Rattle.tt_rounds.specs.Lists.{GivesInTurn, Line, MovesInTurn, IsCourse, IsReported};
ghost use Rattle.tt_rounds.specs.declared.faults.NodeFault.{NodeFault};
ghost use Rattle.tt_rounds.specs.Making.{Makes, stand_of, answer_of};
ghost use Rattle.tt_rounds.specs.Scheduling.{LetsBegin, EndsAfter};
ghost use Rattle.tt_rounds.specs.Reports.{PartEvents, Report, Reports, ReportsByLink, ReportsByMemory, poll_events, polls_events, turn_events, events_below, fuse_events, round_events, rounds_events, TellsLast, no_report, told_by};
ghost use Rattle.tt_rounds.specs.Tallies.{no_tally, refused_in, counted_in};
ghost use Rattle.tt_rounds.specs.declared.tallies.Tally.{Tally};

use crate::faults::NodeFault;
use crate::links::{Link, PACKET_LEN};
use crate::reports::RoundReport;
use crate::schedules::{CountedSchedule, Schedule};
use crate::tallies::Tally;
use std::sync::Wait;
use tt_daemon::Daemon;
use tt_publish::{Clock, Teller};

/// What some rounds did.
#[derive(Clone, Copy, Debug, PartialEq, Eq)]
pub struct Rounds {
    /// How many rounds were done.
    pub done: u32,
    /// How many fusions were published.
    pub published: u64,
    /// How many packets and fusions were refused.
    pub refused: u64,
    /// What was counted. Refusals are counted by number.
    pub tally: Tally,
}

/// What a call of [`report_rounds`] is to do.
#[derive(Clone, Copy, Debug, PartialEq, Eq)]
pub struct RoundsPlan {
    /// How many rounds it does.
    pub rounds: u32,
    /// How many turns each round makes.
    pub turns: u32,
}

/// How far a call has come.
#[derive(Drop)]
struct Progress {
    /// How many turns each round makes.
    turns: u32,
    /// What was done so far.
    counts: Rounds,
    /// What the last round did.
    report: RoundReport,
}

/// How a call ended.
#[derive(Drop)]
struct ReportedRounds {
    /// What was done, or the fault that ended it.
    did: Result<Rounds, NodeFault>,
    /// What the last round did.
    report: RoundReport,
}

impl Progress {
    /// The progress of a call that has not begun a round.
    fn new(turns: u32) -> Progress
        ensures turns { result.turns ≡ turns }
        ensures done { result.counts.done ≡ 0 }
        ensures published { result.counts.published ≡ 0 }
        ensures refused { result.counts.refused ≡ 0 }
        ensures tally { result.counts.tally ≡ no_tally }
        ensures fresh { told_by result.report ≡ no_report }
        ensures nothing { result.report.fusion ≡ None }
    {
        Progress {
            turns,
            counts: Rounds {
                done: 0,
                published: 0,
                refused: 0,
                tally: Tally::new(),
            },
            report: RoundReport::new(),
        }
    }
}

/// Polls a source. Unless the poll is refused, it counts the request and sends it.
fn poll_one<L: Link>(
    daemon: &mut Daemon,
    link: &mut L,
    source: u8,
    clock: u64,
    tally: &mut Tally,
    report: &mut RoundReport,
) -> Result<(), NodeFault>
    requires room { tally.old.polls + 1 < 2 ^ 64 }
    ensures course { (items : List Fusion) → ReportsByLink L.does (poll_at clock source) (poll_events clock source) link.old link.new
        (stand_of daemon.old items tally.old) (stand_of daemon.new items tally.new) result (told_by report.old) (told_by report.new) }
    ensures fails { FailsBy result NodeFault.LinkFailed (L.failed link.old) (L.failed link.new) }
    ensures no_clock { ¬ IsErrOf result NodeFault.ClockFailed }
    ensures rounds_fault { IfErr result IsDeviceFault }
    ensures config { daemon.new.config ≡ daemon.old.config }
    ensures few { tally.new.polls ≤ tally.old.polls + 1 }
    ensures counted { counted_in tally.new ≡ counted_in tally.old }
{
    let Ok(request) = daemon.poll(source, clock) else {
        return Ok(());
    };
    tally.polls += 1;
    report.poll(source, clock);
    let Ok(()) = link.send(source, &request) else {
        return Err(NodeFault::LinkFailed);
    };
    Ok(())
}

/// Polls every source, in the order of their numbers.
fn poll_all<L: Link>(
    daemon: &mut Daemon,
    link: &mut L,
    clock: u64,
    tally: &mut Tally,
    report: &mut RoundReport,
) -> Result<(), NodeFault>
    requires room { tally.old.polls + 255 < 2 ^ 64 }
    ensures course { (items : List Fusion) → ReportsByLink L.does (polls_all clock) (polls_events clock) link.old link.new
        (stand_of daemon.old items tally.old) (stand_of daemon.new items tally.new) result (told_by report.old) (told_by report.new) }
    ensures fails { FailsBy result NodeFault.LinkFailed (L.failed link.old) (L.failed link.new) }
    ensures no_clock { ¬ IsErrOf result NodeFault.ClockFailed }
    ensures rounds_fault { IfErr result IsDeviceFault }
    ensures few { tally.new.polls ≤ tally.old.polls + 255 }
    ensures counted { counted_in tally.new ≡ counted_in tally.old }
{
    for source in 0..daemon.config().sources() {
        poll_one(daemon, link, source as u8, clock, tally, report)?;
    }
    Ok(())
}

/// What the clock shows.
fn read<C: Clock>(clock: &mut C) -> Result<u64, NodeFault>
    ensures gave { IfOk result (λ reading. C.gives clock.old (Some reading) clock.new) }
    ensures failed { OnErr result (C.gives clock.old None clock.new) }
    ensures fault { IfErr result (λ fault. fault ≡ NodeFault.ClockFailed) }
    ensures fails { FailsBy result NodeFault.ClockFailed (C.failed clock.old) (C.failed clock.new) }
{
    match clock.read() {
        Ok(reading) => Ok(reading),
        Err(_) => Err(NodeFault::ClockFailed),
    }
}

/// Receives the next packet. If one came, answers the peer that it came from, and its length.
pub(crate) fn receive<L: Link>(
    link: &mut L,
    buffer: &mut [u8; PACKET_LEN],
) -> Result<Option<(u8, usize)>, NodeFault>
    ensures did { L.does link.old Receive (came_as result buffer.new) link.new }
    ensures whole { length buffer.new ≡ 64 }
    ensures fits { IfOk result (λ came. IfSome came (λ packet. packet.1 ≤ 64)) }
    ensures fault { IfErr result (λ fault. fault ≡ NodeFault.LinkFailed) }
    ensures fails { FailsBy result NodeFault.LinkFailed (L.failed link.old) (L.failed link.new) }
{
    match link.receive(buffer) {
        Ok(came) => Ok(came),
        Err(_) => Err(NodeFault::LinkFailed),
    }
}

/// Makes one turn: takes the packet that comes, if one comes. The packet is counted, as taken or as refused.
fn turn<L: Link, C: Clock>(
    daemon: &mut Daemon,
    link: &mut L,
    clock: &mut C,
    tally: &mut Tally,
    report: &mut RoundReport,
) -> Result<(), NodeFault>
    requires room { counted_in tally.old + 1 < 2 ^ 64 }
    ensures course { (items : List Fusion) → Reports C.gives L.does turn_of turn_events clock.old clock.new link.old link.new
        (stand_of daemon.old items tally.old) (stand_of daemon.new items tally.new) result (told_by report.old) (told_by report.new) }
    ensures link_fails { FailsBy result NodeFault.LinkFailed (L.failed link.old) (L.failed link.new) }
    ensures clock_fails { FailsBy result NodeFault.ClockFailed (C.failed clock.old) (C.failed clock.new) }
    ensures rounds_fault { IfErr result IsDeviceFault }
    ensures polls { tally.new.polls ≡ tally.old.polls }
    ensures few { counted_in tally.new ≤ counted_in tally.old + 1 }
{
    let mut buffer = [0; PACKET_LEN];
    let Some((source, length)) = receive(link, &mut buffer)? else {
        return Ok(());
    };
    let now = read(clock)?;
    match daemon.take(source, now, &buffer[..length]) {
        Ok(()) => {
            tally.taken += 1;
            report.accept(source, now);
            Ok(())
        }
        Err(fault) => {
            tally.refuse_packet(fault);
            report.refuse(source, now, fault);
            Ok(())
        }
    }
}

/// Makes `turns` turns.
fn all_turns<L: Link, C: Clock>(
    daemon: &mut Daemon,
    link: &mut L,
    clock: &mut C,
    turns: u32,
    tally: &mut Tally,
    report: &mut RoundReport,
) -> Result<(), NodeFault>
    requires room { counted_in tally.old + turns < 2 ^ 64 }
    ensures course { (items : List Fusion) → Reports C.gives L.does (each_below turns (λ _. turn_of)) (events_below turns (λ _. turn_of) (λ _. turn_events))
        clock.old clock.new link.old link.new
        (stand_of daemon.old items tally.old) (stand_of daemon.new items tally.new) result (told_by report.old) (told_by report.new) }
    ensures link_fails { FailsBy result NodeFault.LinkFailed (L.failed link.old) (L.failed link.new) }
    ensures clock_fails { FailsBy result NodeFault.ClockFailed (C.failed clock.old) (C.failed clock.new) }
    ensures rounds_fault { IfErr result IsDeviceFault }
    ensures polls { tally.new.polls ≡ tally.old.polls }
    ensures few { counted_in tally.new ≤ counted_in tally.old + turns }
{
    for _ in 0..turns {
        turn(daemon, link, clock, tally, report)?;
    }
    Ok(())
}

/// Fuses what is known, and publishes the fusion. A refused fusion is counted.
fn fuse<R: Wait>(
    rt: &R,
    daemon: &mut Daemon,
    teller: &mut Teller,
    clock: u64,
    counts: &mut Rounds,
    report: &mut RoundReport,
) -> Result<(), NodeFault>
    requires refused_room { refused_in counts.old.tally + 1 < 2 ^ 64 }
    requires published_room { counts.old.published + 1 < 2 ^ 64 }
    ensures course { ReportsByMemory (fuses_at clock) (fuse_events clock) (stand_of daemon.old (fusions_in teller.old.items) counts.old.tally)
        (stand_of daemon.new (fusions_in teller.new.items) counts.new.tally) result (told_by report.old) (told_by report.new) }
    ensures last { OnOk result (TellsLast report.new teller.new.items) }
    ensures grew { Grows teller.old.items teller.new.items counts.old.published counts.new.published }
    ensures no_device { (¬ IsErrOf result NodeFault.LinkFailed) × (¬ IsErrOf result NodeFault.ClockFailed) }
    ensures rounds_fault { IfErr result (IsRoundsFault teller.new.items) }
    ensures done { counts.new.done ≡ counts.old.done }
    ensures polls { counts.new.tally.polls ≡ counts.old.tally.polls }
    ensures few { counted_in counts.new.tally ≤ counted_in counts.old.tally + 1 }
    ensures fewer { counts.new.published ≤ counts.old.published + 1 }
    ensures source { teller.new.source ≡ teller.old.source }
    ensures same { daemon.new ≡ daemon.old }
{
    let fused = match daemon.fuse(clock) {
        Ok(fused) => fused,
        Err(fault) => {
            counts.tally.refuse_fusion(fault);
            report.fuse(Err(fault));
            return Ok(());
        }
    };
    report.fuse(Ok(fused.copied()));
    match teller.publish(rt, fused) {
        Ok(()) => {
            counts.published += 1;
            Ok(())
        }
        Err(fault) => Err(NodeFault::Publish(fault)),
    }
}

/// Makes one round.
fn round<R: Wait, L: Link, C: Clock>(
    rt: &R,
    daemon: &mut Daemon,
    link: &mut L,
    clock: &mut C,
    teller: &mut Teller,
    progress: &mut Progress,
) -> Result<(), NodeFault>
    requires room { counted_in progress.old.counts.tally + progress.old.turns + 1 < 2 ^ 64 }
    requires polls_room { progress.old.counts.tally.polls + 255 < 2 ^ 64 }
    requires published_room { progress.old.counts.published + 1 < 2 ^ 64 }
    ensures course { Reports C.gives L.does (round_of progress.old.turns) (round_events progress.old.turns) clock.old clock.new link.old link.new
        (stand_of daemon.old (fusions_in teller.old.items) progress.old.counts.tally)
        (stand_of daemon.new (fusions_in teller.new.items) progress.new.counts.tally) result (told_by progress.old.report) (told_by progress.new.report) }
    ensures last { OnOk result (TellsLast progress.new.report teller.new.items) }
    ensures grew { Grows teller.old.items teller.new.items progress.old.counts.published progress.new.counts.published }
    ensures link_fails { FailsBy result NodeFault.LinkFailed (L.failed link.old) (L.failed link.new) }
    ensures clock_fails { FailsBy result NodeFault.ClockFailed (C.failed clock.old) (C.failed clock.new) }
    ensures rounds_fault { IfErr result (IsRoundsFault teller.new.items) }
    ensures turns { progress.new.turns ≡ progress.old.turns }
    ensures done { progress.new.counts.done ≡ progress.old.counts.done }
    ensures polls { progress.new.counts.tally.polls ≤ progress.old.counts.tally.polls + 255 }
    ensures few { counted_in progress.new.counts.tally ≤ counted_in progress.old.counts.tally + progress.old.turns + 1 }
    ensures fewer { progress.new.counts.published ≤ progress.old.counts.published + 1 }
    ensures source { teller.new.source ≡ teller.old.source }
{
    progress.report.begin();
    let sent = read(clock)?;
    poll_all(
        daemon,
        link,
        sent,
        &mut progress.counts.tally,
        &mut progress.report,
    )?;
    all_turns(
        daemon,
        link,
        clock,
        progress.turns,
        &mut progress.counts.tally,
        &mut progress.report,
    )?;
    let now = read(clock)?;
    fuse(
        rt,
        daemon,
        teller,
        now,
        &mut progress.counts,
        &mut progress.report,
    )
}

/// Makes rounds as long as the schedule says yes.
fn scheduled_rounds<R: Wait, L: Link, C: Clock, P: Schedule>(
    rt: &R,
    daemon: &mut Daemon,
    link: &mut L,
    clock: &mut C,
    teller: &mut Teller,
    schedule: &mut P,
    progress: &mut Progress,
) -> Result<(), NodeFault>
    requires done { progress.old.counts.done ≡ 0 }
    requires published { progress.old.counts.published ≡ 0 }
    requires refused { progress.old.counts.refused ≡ 0 }
    requires tally { progress.old.counts.tally ≡ no_tally }
    requires last { TellsLast progress.old.report teller.old.items }
    ensures course { (rounds : ℕ) × Reports C.gives L.does (rounds_of rounds progress.old.turns) (rounds_events rounds progress.old.turns) clock.old clock.new link.old link.new
        (stand_of daemon.old (fusions_in teller.old.items) no_tally)
        (stand_of daemon.new (fusions_in teller.new.items) progress.new.counts.tally) result (told_by progress.old.report) (told_by progress.new.report)
        × OnOk result (progress.new.counts.done ≡ rounds) × OnErr result (LetsBegin P.says schedule.old rounds schedule.new) }
    ensures whole { OnOk result (progress.new.counts.refused ≡ refused_in progress.new.counts.tally) }
    ensures last { OnOk result (TellsLast progress.new.report teller.new.items) }
    ensures scheduled { OnOk result (EndsAfter P.says schedule.old progress.new.counts schedule.new) }
    ensures grew { Grows teller.old.items teller.new.items 0 progress.new.counts.published }
    ensures link_fails { FailsBy result NodeFault.LinkFailed (L.failed link.old) (L.failed link.new) }
    ensures clock_fails { FailsBy result NodeFault.ClockFailed (C.failed clock.old) (C.failed clock.new) }
    ensures rounds_fault { IfErr result (IsRoundsFault teller.new.items) }
    ensures few { progress.new.counts.published ≤ 4294967295 }
    ensures source { teller.new.source ≡ teller.old.source }
{
    for _ in 0..u32::MAX {
        if !schedule.goes_on(daemon, &progress.counts) {
            return Ok(());
        }
        round(rt, daemon, link, clock, teller, progress)?;
        progress.counts.refused = progress.counts.tally.refused();
        progress.counts.done += 1;
    }
    Ok(())
}

/// Does rounds, one after the other, as long as the schedule says yes, and at most 2^32 - 1. The schedule is asked before each
/// round, with what was done so far in this call. If it says no, the rounds end.
///
/// Each round reads the clock and polls every source, in the order of their numbers. Then it receives `turns` times. It
/// takes each packet that came, at the next reading of the clock. At the reading after that it fuses what is known, and
/// publishes the fusion.
///
/// If the daemon refuses a poll, nothing is sent. The call counts each poll that is sent and each packet that is taken.
/// It counts each packet and each fusion that is refused, by the number of the refusal. If a turn receives nothing, it
/// counts as a turn too. Times are in nanoseconds.
///
/// Refuses with 1501 `LinkFailed` if the link failed, and with 1502 `ClockFailed` if the clock failed. Refuses also as
/// [`Teller::publish`] does: 802 if the clock went back behind the last publication, 805 if 2^64 - 1 publications were
/// made, 1. A refusal ends the rounds. The steps before it stay done: the daemon has what it took, and what was
/// published stays. The call may be made again.
///
/// It may wait, as `publish` does.
pub fn daemon_while<R: Wait, L: Link, C: Clock, P: Schedule>(
    rt: &R,
    daemon: &mut Daemon,
    link: &mut L,
    clock: &mut C,
    teller: &mut Teller,
    schedule: &mut P,
    turns: u32,
) -> Result<Rounds, NodeFault>
    // The call did the course of some number of rounds, by what the clock, the link and the memory gave in this call.
    // The schedule let each of these rounds begin. If a fault ended the rounds, it ended the last one.
    ensures course { (rounds : ℕ) × (tally : Tally) × Makes C.gives L.does (rounds_of rounds turns) clock.old clock.new link.old link.new
        (stand_of daemon.old (fusions_in teller.old.items) no_tally)
        (stand_of daemon.new (fusions_in teller.new.items) tally) (answer_of result)
        × IfOk result (λ did. (did.tally ≡ tally) × (did.refused ≡ refused_in tally) × (did.done ≡ rounds)) × OnErr result (LetsBegin P.says schedule.old rounds schedule.new) }
    // If there was no fault, the schedule ended the rounds, or 2^32 - 1 of them were done.
    ensures scheduled { IfOk result (λ did. EndsAfter P.says schedule.old did schedule.new) }
    // The list of publications grew, by publications with their certificates.
    ensures grew { (published : ℕ) × Grows teller.old.items teller.new.items 0 published × IfOk result (λ did. did.published ≡ published) }
    ensures few { length teller.new.items ≤ length teller.old.items + 4294967295 }
    // A fault of a device is answered exactly if this device failed.
    ensures link_fails { FailsBy result NodeFault.LinkFailed (L.failed link.old) (L.failed link.new) }
    ensures clock_fails { FailsBy result NodeFault.ClockFailed (C.failed clock.old) (C.failed clock.new) }
    ensures rounds_fault { IfErr result (IsRoundsFault teller.new.items) }
    ensures source { teller.new.source ≡ teller.old.source }
{
    rounds_with(rt, daemon, link, clock, teller, schedule, turns).did
}

/// Does what [`daemon_while`] does, with the same refusals, and reports the last round.
fn rounds_with<R: Wait, L: Link, C: Clock, P: Schedule>(
    rt: &R,
    daemon: &mut Daemon,
    link: &mut L,
    clock: &mut C,
    teller: &mut Teller,
    schedule: &mut P,
    turns: u32,
) -> ReportedRounds
    ensures course { (rounds : ℕ) × (tally : Tally) × Reports C.gives L.does (rounds_of rounds turns) (rounds_events rounds turns) clock.old clock.new link.old link.new
        (stand_of daemon.old (fusions_in teller.old.items) no_tally)
        (stand_of daemon.new (fusions_in teller.new.items) tally) (answer_of result.did) no_report (told_by result.report)
        × IfOk result.did (λ did. (did.tally ≡ tally) × (did.refused ≡ refused_in tally) × (did.done ≡ rounds)) × OnErr result.did (LetsBegin P.says schedule.old rounds schedule.new) }
    ensures scheduled { IfOk result.did (λ did. EndsAfter P.says schedule.old did schedule.new) }
    ensures last { OnOk result.did (TellsLast result.report teller.new.items) }
    ensures grew { (published : ℕ) × Grows teller.old.items teller.new.items 0 published × IfOk result.did (λ did. did.published ≡ published) }
    ensures few { length teller.new.items ≤ length teller.old.items + 4294967295 }
    ensures link_fails { FailsBy result.did NodeFault.LinkFailed (L.failed link.old) (L.failed link.new) }
    ensures clock_fails { FailsBy result.did NodeFault.ClockFailed (C.failed clock.old) (C.failed clock.new) }
    ensures rounds_fault { IfErr result.did (IsRoundsFault teller.new.items) }
    ensures source { teller.new.source ≡ teller.old.source }
{
    let mut progress = Progress::new(turns);
    match scheduled_rounds(rt, daemon, link, clock, teller, schedule, &mut progress) {
        Ok(()) => ReportedRounds {
            did: Ok(progress.counts),
            report: progress.report,
        },
        Err(fault) => ReportedRounds {
            did: Err(fault),
            report: progress.report,
        },
    }
}

/// Does `rounds` rounds, as [`daemon_while`] does, with the same refusals.
pub fn daemon_rounds<R: Wait, L: Link, C: Clock>(
    rt: &R,
    daemon: &mut Daemon,
    link: &mut L,
    clock: &mut C,
    teller: &mut Teller,
    rounds: u32,
    turns: u32,
) -> Result<Rounds, NodeFault>
    // The call did the course of the rounds, by what the clock, the link and the memory gave in this call.
    ensures course { (tally : Tally) × Makes C.gives L.does (rounds_of rounds turns) clock.old clock.new link.old link.new
        (stand_of daemon.old (fusions_in teller.old.items) no_tally)
        (stand_of daemon.new (fusions_in teller.new.items) tally) (answer_of result)
        × IfOk result (λ did. (did.tally ≡ tally) × (did.refused ≡ refused_in tally)) }
    // The list of publications grew, by publications with their certificates.
    ensures grew { (published : ℕ) × Grows teller.old.items teller.new.items 0 published × IfOk result (λ did. did.published ≡ published) }
    ensures done { IfOk result (λ did. did.done ≡ rounds) }
    ensures few { length teller.new.items ≤ length teller.old.items + 4294967295 }
    // A fault of a device is answered exactly if this device failed.
    ensures link_fails { FailsBy result NodeFault.LinkFailed (L.failed link.old) (L.failed link.new) }
    ensures clock_fails { FailsBy result NodeFault.ClockFailed (C.failed clock.old) (C.failed clock.new) }
    ensures rounds_fault { IfErr result (IsRoundsFault teller.new.items) }
    ensures source { teller.new.source ≡ teller.old.source }
{
    let mut report = RoundReport::new();
    let plan = RoundsPlan { rounds, turns };
    report_rounds(rt, daemon, link, clock, teller, plan, &mut report)
}

/// Does the rounds of `plan`, as [`daemon_rounds`] does, with the same refusals, and reports the last one in `report`.
/// What `report` held before is forgotten. If a fault ended the rounds, the report is of the round that it ended, up to
/// the fault. If the plan has 0 rounds, it is the report of no round.
pub fn report_rounds<R: Wait, L: Link, C: Clock>(
    rt: &R,
    daemon: &mut Daemon,
    link: &mut L,
    clock: &mut C,
    teller: &mut Teller,
    plan: RoundsPlan,
    report: &mut RoundReport,
) -> Result<Rounds, NodeFault>
    // The call did the course of the rounds, by what the clock, the link and the memory gave in this call. The report
    // is of the events of this course: of the polls, of the packets that came, and of the fusion.
    ensures course { (tally : Tally) × Reports C.gives L.does (rounds_of plan.rounds plan.turns) (rounds_events plan.rounds plan.turns) clock.old clock.new link.old link.new
        (stand_of daemon.old (fusions_in teller.old.items) no_tally)
        (stand_of daemon.new (fusions_in teller.new.items) tally) (answer_of result) no_report (told_by report.new)
        × IfOk result (λ did. (did.tally ≡ tally) × (did.refused ≡ refused_in tally)) }
    // If there was no fault, a fusion that the report has is the last publication, with its certificate.
    ensures last { OnOk result (TellsLast report.new teller.new.items) }
    // The list of publications grew, by publications with their certificates.
    ensures grew { (published : ℕ) × Grows teller.old.items teller.new.items 0 published × IfOk result (λ did. did.published ≡ published) }
    ensures done { IfOk result (λ did. did.done ≡ plan.rounds) }
    ensures few { length teller.new.items ≤ length teller.old.items + 4294967295 }
    // A fault of a device is answered exactly if this device failed.
    ensures link_fails { FailsBy result NodeFault.LinkFailed (L.failed link.old) (L.failed link.new) }
    ensures clock_fails { FailsBy result NodeFault.ClockFailed (C.failed clock.old) (C.failed clock.new) }
    ensures rounds_fault { IfErr result (IsRoundsFault teller.new.items) }
    ensures source { teller.new.source ≡ teller.old.source }
{
    let RoundsPlan { rounds, turns } = plan;
    let mut schedule = CountedSchedule { rounds };
    let reported = rounds_with(rt, daemon, link, clock, teller, &mut schedule, turns);
    *report = reported.report;
    reported.did
}

/// A law of all parts of the course, for instance the rounds of [`daemon_rounds`], over a clock and a link that each
/// keep a list of what they are to give. What a call did is the course that is computed from these lists. The course
/// leaves exactly what the clock and the link have left, and what was sent is what the course sent.
pub fn course_laws()
    ensures lists { (part : Part (Unit {0})) (clock clock' : List (Option ℕ)) (line line' : Line) (from to : List Exchange → Stand)
        (answer : Result (Unit {0}) NodeFault) → Makes GivesInTurn MovesInTurn part clock clock' line line' from to answer →
        IsCourse part clock clock' line line' from to answer }
{}

/// The same law of all parts of the course with their events, for instance of [`report_rounds`]: the events are
/// computed from the same lists, and the report is theirs.
pub fn report_laws()
    ensures lists { (part : Part (Unit {0})) (events : PartEvents) (clock clock' : List (Option ℕ)) (line line' : Line) (from to : List Exchange → Stand)
        (answer : Result (Unit {0}) NodeFault) (before after : Report) → Reports GivesInTurn MovesInTurn part events clock clock' line line' from to answer before after →
        IsReported part events clock clock' line line' from to answer before after }
{}

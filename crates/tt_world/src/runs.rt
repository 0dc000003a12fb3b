//! Whole runs.

ghost use Rattle.std.specs.Prelude.{◌≡◌, ℕ, ◌<◌, ◌⊎◌, ◌↔◌, List, [], length, map, reverse, IfOk, IfErr, IsErrOf, None};
ghost use Rattle.tt_world.specs.Headline.{AreConfigurations, AreEvents, ReadingsHold, FusionsAreShortest, NoFusionRefused, StampsAreLeast, StampsInLeases, LeasesKeepStampsApart, ExternallyConsistent, CertificatesProve};
ghost use Rattle.tt_world.specs.Reply.{replies_from, reply_of, IsBadReply, MakesStatement};
ghost use Rattle.tt_world.specs.Assumptions.{MeetsAssumptions, NoBreach};
ghost use Rattle.tt_world.specs.Bad.{first_bad, accepted};
ghost use Rattle.tt_world.specs.Publications.{shown_of};
ghost use Rattle.tt_world.specs.Trace.{outline, IsTraceOf};
ghost use Rattle.tt_world.specs.Commits.{book_of};
ghost use Rattle.tt_world.specs.Life.{Life};
ghost use Rattle.tt_world.specs.Config.{config_at, max_machines};
ghost use Rattle.tt_world.specs.declared.events.Event.{Event};
ghost use Rattle.tt_daemon.specs.Config.{Configuration};
ghost use Rattle.tt_stamp.specs.History.{IsLegalHistory};

use crate::events::{Event, Reply};
use crate::faults::WorldFault;
use crate::publications::Shown;
use crate::world::World;
use std::alloc::Global;
use std::marker::Model;
use tt_daemon::Config;

/// What a run answers: the reply to each event, and what was published, both in the order of the events.
#[derive(Drop)]
pub struct Trace {
    replies: Vec<Reply>,
    shown: Vec<Shown>,
}

impl Model for Trace {
    ghost use Rattle.tt_world.specs.Trace.{RunTrace};

    ghost Value = { RunTrace };

    ghost view = { λ t. record { replies = t.replies.items; shown = t.shown.items } };
}

impl Trace {
    /// The replies, one for each event.
    pub fn replies(&self) -> &[Reply]
        ensures { result.now ≡ self.now.replies }
    {
        self.replies.as_slice()
    }

    /// The publications of all machines.
    pub fn shown(&self) -> &[Shown]
        ensures { result.now ≡ self.now.shown }
    {
        self.shown.as_slice()
    }
}

/// Runs a list of events on these machines, from the beginning, and answers the replies and what was published. Every
/// list is taken: the reply to a bad event is its number. Refuses with 1207 `Machines` if there is no machine, or more
/// than eight, and with 1 `Memory` if it is out of memory; there is no trace then.
pub fn run(alloc: Global, configs: &[Config], events: &[Event]) -> Result<Trace, WorldFault>
    // The reply to each event is the one that is defined by searching back over the events before it.
    ensures replies { IfOk result (λ trace. trace.replies ≡ replies_from configs.now [] events.now) }

    // Every reading holds the true time of its event, as long as at most f sources of each machine are faulty and its
    // clock keeps the drift bound.
    ensures readings_hold { IfOk result (λ trace. ReadingsHold configs.now events.now trace.replies) }

    // Every fused interval is the shortest that is right whichever sources lie. Nothing is assumed.
    ensures fusions_are_shortest { IfOk result (λ trace. FusionsAreShortest configs.now events.now trace.replies) }

    // Under the assumptions no fusion is refused if enough sources are known.
    ensures no_fusion_refused { IfOk result (λ trace. NoFusionRefused configs.now events.now trace.replies) }

    // Every stamp is the least that its rules allow. Nothing is assumed.
    ensures stamps_are_least { IfOk result (λ trace. StampsAreLeast configs.now events.now trace.replies) }

    // Every stamp lies in the lease that its machine had at that event, so two stamps under leases that do not meet
    // differ. Nothing is assumed.
    ensures stamps_in_leases { IfOk result (λ trace. StampsInLeases configs.now events.now trace.replies) }
    ensures leases_keep_apart { IfOk result (λ trace. LeasesKeepStampsApart configs.now events.now trace.replies) }

    // Under the assumptions a commit that is released before another arrives, on whatever machines, has the smaller
    // stamp (Spanner's external consistency: OSDI 2012, section 4.1.2).
    ensures externally_consistent { IfOk result (λ trace. ExternallyConsistent configs.now events.now trace.replies) }

    // What is shown is what was published, with the spans that were fused.
    ensures shown { IfOk result (λ trace. map outline trace.shown ≡ shown_of configs.now (accepted configs.now (reverse events.now))) }

    // Each publication has the certificate by which anybody can check it.
    ensures certificates_prove { IfOk result (λ trace. CertificatesProve trace.shown) }

    // All that the trace is, as one fact that a caller can require.
    ensures trace { IfOk result (λ trace. IsTraceOf configs.now events.now trace) }

    ensures machines { IsErrOf result WorldFault.Machines ↔ ((length configs.now ≡ 0) ⊎ (max_machines < length configs.now)) }
    ensures refused { IfErr result (λ e. (e ≡ WorldFault.Machines) ⊎ (e ≡ WorldFault.Memory)) }
{
    let mut world = World::new(alloc, configs)?;
    let mut replies = Vec::new(alloc);
    for event in events {
        event.recall();
        replies.push(world.step(event)?)?;
    }
    Ok(Trace {
        replies,
        shown: world.into_shown(),
    })
}

/// Laws of the definitions, for every list of events. What [`run`] says of its replies, these say of the defined
/// replies, so they hold without a call, and without memory for one.
pub fn run_laws()
    // Under the assumptions every reading holds the true time, and a commit that is released before another arrives
    // has the smaller stamp, as `run` says of its own replies.
    ensures readings_hold { (configs : List Configuration) (events : List Event) → AreConfigurations configs → AreEvents events →
        ReadingsHold configs events (replies_from configs [] events) }
    ensures externally_consistent { (configs : List Configuration) (events : List Event) → AreConfigurations configs → AreEvents events →
        ExternallyConsistent configs events (replies_from configs [] events) }

    // Under the assumptions no fusion is refused if enough sources are known.
    ensures no_fusion_refused { (configs : List Configuration) (events : List Event) → AreConfigurations configs → AreEvents events →
        NoFusionRefused configs events (replies_from configs [] events) }

    // Every fused interval is the shortest that is right whichever sources lie. Nothing is assumed of the events.
    ensures fusions_are_shortest { (configs : List Configuration) (events : List Event) → AreConfigurations configs →
        FusionsAreShortest configs events (replies_from configs [] events) }

    // Every stamp is the least that its rules allow, and lies in the lease that its machine had at that event, so two
    // stamps under leases that do not meet differ. Nothing is assumed.
    ensures stamps_are_least { (configs : List Configuration) (events : List Event) → StampsAreLeast configs events (replies_from configs [] events) }
    ensures stamps_in_leases { (configs : List Configuration) (events : List Event) → StampsInLeases configs events (replies_from configs [] events) }
    ensures leases_keep_apart { (configs : List Configuration) (events : List Event) → LeasesKeepStampsApart configs events (replies_from configs [] events) }

    // A list of events keeps the assumptions exactly if none of them breaks one.
    ensures breaches { (configs : List Configuration) (past : List Event) → MeetsAssumptions configs past ↔ NoBreach configs past }

    // An event is accepted exactly if its reply is not a number from 1201 to 1208.
    ensures accepted { (configs : List Configuration) (past : List Event) (event : Event) →
        (first_bad configs (accepted configs past) event ≡ None) ↔ (¬ IsBadReply (reply_of configs past event)) }

    // The reply is `Taken` exactly if the event makes a statement.
    ensures taken { (configs : List Configuration) (past : List Event) (event : Event) →
        (reply_of configs past event ≡ Reply.Taken) ↔ MakesStatement configs past event }

    // The book of each machine is a legal history: each commit was queued when that was allowed, and each receipt was
    // the next one. So a commit is pending if it was queued and no later receipt names it.
    ensures legal_books { (configs : List Configuration) (past : List Event) (life : Life) →
        IsLegalHistory (book_of (config_at configs life.machine) (accepted configs past) life) }
{}

//! The twin of a reading.

ghost use Rattle.std.specs.Prelude.{◌≡◌, ◌<◌, ◌≤◌, ◌⊎◌, ◌↔◌, ◌++◌, length, ℕ, map, nat_lt, List, All, IfOk, IfErr, OnOk, Ok, Err, slice_index_or};
ghost use Rattle.tt_span.specs.Time.{max_time, cut};
ghost use Rattle.tt_span.specs.Interval.{Interval, whole, Holds};
ghost use Rattle.tt_twin.specs.Alike.{IsReadingOf, HasReading, AsksToRead, accepted_to, IsTwin, IsRightForLook};
ghost use Rattle.tt_twin.specs.Twin.{twin_of, end_of, end_after, polls, answers, deliveries, fused_again};
ghost use Rattle.tt_twin.specs.declared.twins.Side.{Side};
ghost use Rattle.tt_twin.specs.Observation.{IsObservation, glance_again, asked_in, is_read, twin_of_asked};
ghost use Rattle.tt_daemon.specs.Config.{Configuration};
ghost use Rattle.tt_world.specs.declared.events.Event.{Event};
ghost use Rattle.tt_world.specs.Config.{config_at, max_machines};
ghost use Rattle.tt_world.specs.Headline.{AreConfigurations};
ghost use Rattle.tt_world.specs.Publications.{shown_of};
ghost use Rattle.tt_world.specs.Trace.{outline};

use crate::observations::{Glance, Observation, observation_of};
use crate::twin_faults::TwinFault;
use std::alloc::{AllocError, Global};
use tt_daemon::Config;
use tt_span::{Drift, MAX_TIME, Span};
use tt_world::{Action, Event, MAX_MACHINES, Reply, Shown, run};

/// An end of a reading.
#[derive(Clone, Copy, Debug, PartialEq, Eq)]
pub enum Side {
    /// The earliest.
    Low,
    /// The latest.
    High,
}

impl Side {
    /// The end of a span on this side, in nanoseconds.
    fn end(self, span: &Span) -> u64
        ensures value { result ≡ end_of self span.now }
        ensures in_time { result ≤ max_time }
    {
        match self {
            Side::Low => span.lo(),
            Side::High => span.hi(),
        }
    }

    /// The end `x` on this side after the clock has gone on by `d`, both in nanoseconds: aged, and cut at the greatest
    /// time.
    fn after(self, drift: Drift, x: u64, d: u64) -> u64
        requires { d ≤ max_time }
        ensures { result ≡ cut (end_after self drift x d) }
    {
        match self {
            Side::Low => drift.age_low(x, d),
            Side::High => drift.age_high(x, d),
        }
    }

    /// Whether that end lies past the greatest time before it is cut.
    fn is_cut(self, drift: Drift, x: u64, d: u64) -> bool
        requires at { x ≤ max_time }
        requires on { d ≤ max_time }
        ensures { result ≡ nat_lt max_time (end_after self drift x d) }
    {
        match self {
            Side::Low => x + d - drift.widen(d) > MAX_TIME,
            Side::High => x + d + drift.widen(d) > MAX_TIME,
        }
    }
}

/// Polls these sources.
fn poll_all(
    twin: &mut Vec<Event>,
    at: u64,
    machine: u8,
    clock: u64,
    sources: &[u8],
) -> Result<(), AllocError>
    ensures { IfOk result (λ _. twin.new.items ≡ twin.old.items ++ polls at machine clock sources.now) }
{
    for source in sources {
        let action = Action::Send {
            machine,
            source: *source,
            clock,
        };
        twin.push(Event { at, action })?;
    }
    Ok(())
}

/// Answers the first requests by these spans.
fn answer_all(twin: &mut Vec<Event>, at: u64, spans: &[Span]) -> Result<(), AllocError>
    ensures { IfOk result (λ _. twin.new.items ≡ twin.old.items ++ answers at spans.now) }
{
    for (packet, span) in spans.iter().enumerate() {
        let action = Action::Answer {
            packet: packet as u64,
            span: *span,
        };
        twin.push(Event { at, action })?;
    }
    Ok(())
}

/// Delivers the answers to the requests to these sources.
fn deliver_all(twin: &mut Vec<Event>, at: u64, clock: u64, sources: &[u8]) -> Result<(), AllocError>
    ensures { IfOk result (λ _. twin.new.items ≡ twin.old.items ++ deliveries at clock (length sources.now)) }
{
    for place in 0..sources.len() {
        let action = Action::Deliver {
            packet: (sources.len() + place) as u64,
            clock,
        };
        twin.push(Event { at, action })?;
    }
    Ok(())
}

/// The spans of these sources.
fn spans_at(alloc: Global, spans: &[Span], sources: &[u8]) -> Result<Vec<Span>, AllocError>
    ensures { IfOk result (λ chosen. chosen.items ≡ map (λ i. slice_index_or spans.now i whole) sources.now) }
{
    let mut chosen = Vec::new(alloc);
    for source in sources {
        chosen.push(
            spans
                .get(usize::from(*source))
                .copied()
                .unwrap_or(Span::whole()),
        )?;
    }
    Ok(chosen)
}

/// Each known source states again what its statement was worth, and the machine fuses these.
fn fuse_again(
    alloc: Global,
    at: u64,
    machine: u8,
    clock: u64,
    known: &[u8],
    spans: &[Span],
) -> Result<Vec<Event>, AllocError>
    ensures { IfOk result (λ twin. twin.items ≡ fused_again at machine clock known.now spans.now) }
{
    let chosen = spans_at(alloc, spans, known)?;
    let mut twin = Vec::new(alloc);
    poll_all(&mut twin, at, machine, clock, known)?;
    answer_all(&mut twin, at, &chosen)?;
    deliver_all(&mut twin, at, clock, known)?;
    let action = Action::Fuse { machine, clock };
    twin.push(Event { at, action })?;
    Ok(twin)
}

/// What a twin is made by: the machine and its drift, the clock reading of the fusion, the chosen side, and the end of
/// the fused span on that side, which is the true time of the fusion.
#[derive(Clone, Copy)]
struct Scene {
    side: Side,
    drift: Drift,
    machine: u8,
    clock: u64,
    end: u64,
}

/// Takes the looks again.
fn look_all_again(
    twin: &mut Vec<Event>,
    scene: &Scene,
    glances: &[Glance],
) -> Result<(), AllocError>
    requires { All (λ glance. glance.clock ≤ max_time) glances.now }
    ensures { IfOk result (λ _. twin.new.items ≡ twin.old.items
        ++ map (glance_again scene.now.side scene.now.drift scene.now.machine scene.now.clock scene.now.end) glances.now) }
{
    for glance in glances {
        let since = glance.clock.saturating_sub(scene.clock);
        let action = Action::Read {
            machine: scene.machine,
            worker: glance.worker,
            clock: glance.clock,
            publication: 1,
        };
        let at = scene.side.after(scene.drift, scene.end, since);
        twin.push(Event { at, action })?;
    }
    Ok(())
}

/// Which publication an event reads from, and at which clock reading.
#[derive(Clone, Copy)]
struct Asked {
    machine: u8,
    clock: u64,
    publication: u64,
}

/// The publication and the clock reading of an event, if it reads.
fn asked_by(event: &Event) -> Option<Asked>
    ensures { result ≡ asked_in event.now.action }
{
    match &event.action {
        Action::Read {
            machine,
            clock,
            publication,
            ..
        } => Some(Asked {
            machine: *machine,
            clock: *clock,
            publication: *publication,
        }),
        _ => None,
    }
}

/// Whether a reply is a reading.
fn is_reading(reply: &Reply) -> bool
    ensures { result ≡ is_read reply.now }
{
    matches!(reply, Reply::Read(_))
}

/// The twin of a reading, made by what its machine saw of the publication.
fn twin_by(
    alloc: Global,
    config: &Config,
    shown: &[Shown],
    observation: &Observation,
    asked: Asked,
    side: Side,
) -> Result<Vec<Event>, TwinFault>
    requires in_time { asked.clock ≤ max_time }
    requires glances { All (λ glance. glance.clock ≤ max_time) observation.now.glances.items }
    ensures value { (configs : List Configuration) (past : List Event) → config_at configs asked.machine ≡ config.now →
        map outline shown.now ≡ shown_of configs past → IsObservation configs past asked.machine asked.publication observation.now →
        IfOk result (λ twin. twin_of_asked side configs past asked ≡ Ok twin.items) }
    ensures refused { (configs : List Configuration) (past : List Event) → config_at configs asked.machine ≡ config.now →
        map outline shown.now ≡ shown_of configs past → IsObservation configs past asked.machine asked.publication observation.now →
        IfErr result (λ e. (e ≡ TwinFault.Memory) ⊎ (twin_of_asked side configs past asked ≡ Err e)) }
{
    let Some(made) = &observation.made else {
        return Err(TwinFault::NotAReading);
    };
    let Some(found) = shown.get(made.place) else {
        return Err(TwinFault::NotAReading);
    };
    let scene = Scene {
        side,
        drift: config.drift(),
        machine: asked.machine,
        clock: found.fused.clock(),
        end: side.end(&found.fused.span()),
    };
    if side.is_cut(
        scene.drift,
        scene.end,
        asked.clock.saturating_sub(scene.clock),
    ) {
        return Err(TwinFault::Cut);
    }
    let mut twin = fuse_again(
        alloc,
        scene.end,
        scene.machine,
        scene.clock,
        &made.known,
        found.fused.spans(),
    )?;
    look_all_again(&mut twin, &scene, &observation.glances)?;
    Ok(twin)
}

/// Makes the twin of the reading of event `k`: a run in which the machine sees what it saw up to that event, and in
/// which the true time at the end is the chosen end of that reading. Its sources state again, at one true time, what
/// their statements were worth at the fusion of that publication. The machine fuses these, and its workers read from it
/// again what they read up to event `k`. Times are in nanoseconds.
///
/// Refuses, in this order: 1207 `Machines` where there is no machine, or more than eight; 1401 `NotAReading` where
/// there is no event `k` or its reply is not a reading; 1402 `Cut` where that end lies past the greatest time before it
/// is cut. 1 `Memory` comes only if event `k` is there and reads: in place of a twin, of 1402, or of 1401 where its
/// reply is not a reading.
pub fn twin(
    alloc: Global,
    configs: &[Config],
    events: &[Event],
    k: usize,
    side: Side,
) -> Result<Vec<Event>, TwinFault>
    // The twin or the refusal is the defined one, unless it is out of memory.
    ensures value { IfOk result (λ twin. twin_of configs.now events.now k side ≡ Ok twin.items) }
    ensures refused { IfErr result (λ e. (e ≡ TwinFault.Memory) ⊎ (twin_of configs.now events.now k side ≡ Err e)) }

    // Memory is taken only if there are one to eight machines, and event k is there and reads. Only the run up to it
    // shows whether its reply is a reading, and whether the end of that is cut.
    ensures memory_only { IfErr result (λ e. e ≡ TwinFault.Memory → AsksToRead events.now k × (0 < length configs.now) × (length configs.now ≤ max_machines)) }

    // In the twin no event is refused and the assumptions are kept; the machine sees the same spans, the same number of
    // sources that may lie, the same clock readings and the same readings up to this one; and the true time is then at
    // the chosen end of this reading.
    ensures twin { IfOk result (λ twin. (m number : ℕ) (reading : Interval) → IsReadingOf configs.now events.now k m number reading →
        IsTwin configs.now (accepted_to configs.now events.now k) m number (end_of side reading) twin.items) }

    // So no interval that is narrower at this end is right: one that holds the true time in every run that keeps the
    // assumptions and shows the machine the same holds this end.
    ensures no_narrower { OnOk result ((m number : ℕ) (reading span : Interval) → IsReadingOf configs.now events.now k m number reading →
        IsRightForLook configs.now (accepted_to configs.now events.now k) m number span → Holds span (end_of side reading)) }
{
    if configs.is_empty() || configs.len() > MAX_MACHINES {
        return Err(TwinFault::Machines);
    }
    let Some(event) = events.get(k) else {
        return Err(TwinFault::NotAReading);
    };
    let Some(asked) = asked_by(event) else {
        return Err(TwinFault::NotAReading);
    };
    let upto = &events[..k + 1];
    let Ok(trace) = run(alloc, configs, upto) else {
        return Err(TwinFault::Memory);
    };
    if !is_reading(&trace.replies()[k]) {
        return Err(TwinFault::NotAReading);
    }
    let Ok(observation) = observation_of(alloc, configs, upto, asked.machine, asked.publication)
    else {
        return Err(TwinFault::Memory);
    };
    twin_by(
        alloc,
        &configs[usize::from(asked.machine)],
        trace.shown(),
        &observation,
        asked,
        side,
    )
}

/// Laws of the defined twin: when it is refused, and what it is worth. They hold without a call of [`twin`], and
/// without memory for one.
pub fn twin_laws()
    // It is refused with 1207 if there is no machine, or more than eight.
    ensures machines { (configs : List Configuration) (events : List Event) (k : ℕ) (side : Side) →
        (twin_of configs events k side ≡ Err TwinFault.Machines) ↔ ((length configs ≡ 0) ⊎ (max_machines < length configs)) }

    // Otherwise with 1401 if there is no event k, or its reply is not a reading.
    ensures not_a_reading { (configs : List Configuration) (events : List Event) (k : ℕ) (side : Side) →
        twin_of configs events k side ≡ Err TwinFault.NotAReading → (m number : ℕ) (reading : Interval) → ¬ IsReadingOf configs events k m number reading }

    // Otherwise with 1402 if that end of the reading lies past the greatest time before it is cut.
    ensures cut { (configs : List Configuration) (events : List Event) (k : ℕ) (side : Side) →
        twin_of configs events k side ≡ Err TwinFault.Cut → (x : ℕ) × (max_time < x) × HasReading configs events k side x }

    // Else there is one: the reading ends at the greatest time or before.
    ensures answered { (configs : List Configuration) (events twin : List Event) (k : ℕ) (side : Side) →
        twin_of configs events k side ≡ Ok twin → (x : ℕ) × (x ≤ max_time) × HasReading configs events k side x }

    // That one is a twin, as `twin` says of its own answer: in it no event is refused and the assumptions are kept, the
    // machine sees the same, and the true time is then at the chosen end of the reading.
    ensures twin { (configs : List Configuration) (events twin : List Event) (k : ℕ) (side : Side) → AreConfigurations configs →
        twin_of configs events k side ≡ Ok twin → (m number : ℕ) (reading : Interval) → IsReadingOf configs events k m number reading →
        IsTwin configs (accepted_to configs events k) m number (end_of side reading) twin }

    // So no interval that is narrower at this end is right for all runs that show the machine the same.
    ensures no_narrower { (configs : List Configuration) (events twin : List Event) (k : ℕ) (side : Side) → AreConfigurations configs →
        twin_of configs events k side ≡ Ok twin → (m number : ℕ) (reading span : Interval) → IsReadingOf configs events k m number reading →
        IsRightForLook configs (accepted_to configs events k) m number span → Holds span (end_of side reading) }
{}

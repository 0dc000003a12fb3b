//! What is shared with the other processes of the machine.

ghost use Rattle.std.specs.Prelude.{◌≡◌, ◌≢◌, ◌≤◌, ◌<◌, ◌-◌, ◌^◌, ℕ, List, ◌∷◌};
ghost use Rattle.tt_span.specs.Time.{max_time};
ghost use Rattle.tt_span.specs.Drift.{Moment, KeepsDrift, max_drift};
ghost use Rattle.tt_span.specs.Interval.{IsInterval, Holds};
ghost use Rattle.tt_daemon.specs.Publication.{Publication as Published};
ghost use Rattle.tt_publish.specs.Reading.{CanBeReadAt, fused_span_of, reading_at};
ghost use Rattle.tt_settings.specs.declared.plans.Pauses.{Pauses as ThePauses};
ghost use Rattle.tt_shared.specs.declared.slots.SharedSpan.{SharedSpan as TheSpan};
ghost use Rattle.tt_shared.specs.Looking.{word_of};
ghost use Rattle.tt_shared.specs.Seeing.{IsSeen};
ghost use Rattle.tt_shared.specs.Slot.{IsShared, IsSlotOf};
ghost use Rattle.tt_consistency.specs.Reads.{IsNoEarlier};
ghost use Rattle.tt_consistency.specs.Timeline.{HeldTrueTime};
ghost use Rattle.tt_sharing.specs.Share.{ended_at, fresh_until, growing_time, period_of, shared_of, usable_until, withdrawn, without_slewed};

use tt_daemon::{Config, Fused};
use tt_publish::FusedSpan;
use tt_settings::Pauses;
use tt_shared::{SharedSpan, SlewedBase};
use tt_span::{Drift, MAX_TIME, Span};

/// What the rounds of a life have in common.
#[derive(Clone, Copy)]
pub struct RoundTerms {
    pub config: Config,
    pub epoch: u64,
    pub pauses: Pauses,
    /// The widest reading that is given, in nanoseconds; 2^64 - 1 if there is no limit.
    pub max_width: u64,
}

/// The longest time from one publication to the next, in nanoseconds, if the round between them waits as long as it
/// may.
pub fn period_of(pauses: &Pauses) -> u64
    ensures value { result ≡ period_of pauses.now }
    ensures in_time { result ≤ max_time }
{
    pauses.poll.saturating_add(pauses.wait).min(MAX_TIME)
}

/// The last clock reading, in nanoseconds, at which a fusion that was made at the reading `clock` is fresh: three
/// periods later.
pub fn fresh_until(clock: u64, period: u64) -> u64
    requires { period ≤ max_time }
    ensures value { result ≡ fresh_until clock period }
{
    clock.saturating_add(3 * period)
}

/// For how long the ends of a span grow by at most `room` nanoseconds on a clock with this drift, in nanoseconds.
fn growing_time(room: u64, drift: Drift) -> u64
    ensures value { result ≡ growing_time room drift }
{
    let ppm = u64::from(drift.ppm());
    if ppm == 0 {
        return u64::MAX;
    }
    room.saturating_mul(1_000_000) / ppm
}

/// The last clock reading at which a reading of a span that was fused at `clock` is at most `most` wide; 2^64 - 1 if `most`
/// is: there is no limit. A span that is wider itself may not be read at all.
pub fn usable_until(clock: u64, span: &Span, drift: Drift, most: u64) -> u64
    ensures value { result ≡ usable_until clock span.now drift most }
{
    if most == u64::MAX {
        return u64::MAX;
    }
    let width = span.hi() - span.lo();
    if most < width {
        return clock.saturating_sub(1);
    }
    clock.saturating_add(growing_time((most - width) / 2, drift))
}

/// The publication with this number in the life of these terms, as other processes read it. It rests on answers as new
/// as the clock reading `needed`, and is fresh for three periods after that. It has no second base yet.
pub fn shared_of(fused: &Fused, number: u64, needed: u64, terms: &RoundTerms) -> SharedSpan
    ensures value { result ≡ shared_of fused.now terms.now.epoch number needed terms.now.pauses terms.now.config.drift terms.now.max_width }
{
    let (clock, span) = (fused.clock(), fused.span());
    let drift = terms.config.drift();
    SharedSpan {
        fused: FusedSpan { clock, span },
        valid_until: fresh_until(needed, period_of(&terms.pauses)),
        epoch: terms.epoch,
        number,
        drift,
        usable_until: usable_until(clock, &span, drift, terms.max_width),
        slewed: SlewedBase::none(),
    }
}

/// The same publication after its machine ended in order at the clock reading `now`. After this reading it is no longer
/// fresh, and by its second base it is not fresh at any reading but 0.
pub fn ended_at(shared: &SharedSpan, now: u64) -> SharedSpan
    ensures value { result ≡ ended_at shared.now now }
{
    let mut ended = *shared;
    ended.valid_until = now;
    ended.slewed.valid_until = 0;
    ended
}

/// What is shared once the machine knows that an assumption is broken: that nothing is published. It has the epoch of the
/// life and the number of its last publication.
pub fn withdrawn(epoch: u64, number: u64, drift: Drift) -> SharedSpan
    ensures value { result ≡ withdrawn epoch number drift }
{
    SharedSpan {
        fused: FusedSpan {
            clock: 0,
            span: Span::whole(),
        },
        valid_until: 0,
        epoch,
        number,
        drift,
        usable_until: 0,
        slewed: SlewedBase::none(),
    }
}

/// The folder of a path, and the name of the file in it.
pub fn folder_and_name(path: &str) -> (&str, &str) {
    match path.rsplit_once('/') {
        Some((folder, name)) => {
            if folder.is_empty() {
                ("/", name)
            } else {
                (folder, name)
            }
        }
        None => (".", path),
    }
}

/// Laws, not a call to make: what other processes read in the shared file of a machine.
///
/// `published n` is the publication with count n in the file, by whichever writer. A reader found `bytes` between two looks
/// at `index`, as [`SharedReader::now`](tt_shared::SharedReader::now) answers it, and the slot of `found` in them. Its
/// clock showed `clock`. There are two premises that no contract here gives. Each byte was seen as a writer had written it
/// at one moment, and these moments are in the order of the looks (`IsSeen`): a file of the operating system claims nothing.
/// And the publication with that count is one of this life: [`Share::put`] has its writer write what it is given, and a
/// machine gives it publications of its life alone, rising, some of which may be left out. So this is so from the first
/// publication of the life on that is written, as long as no other process writes the file.
pub fn shared_laws()
    // What is shared of a publication in range can be written and read: its numbers are in range.
    ensures in_range { (publication : Published) (epoch number needed : ℕ) (pauses : ThePauses) (drift most : ℕ) →
        publication.clock ≤ max_time → IsInterval publication.span → epoch < 2 ^ 64 → number < 2 ^ 64 → drift ≤ max_drift →
        IsShared (shared_of publication epoch number needed pauses drift most) }

    // A reading by the file is the reading of the publication of the life that has the count of the index, aged by the
    // drift of its machine up to what the reader's own clock showed, whether it has a second base or not.
    ensures is_of_life { (published : ℕ → TheSpan) (n : ℕ) (index bytes : List ℕ) (found : TheSpan) (clock : ℕ)
        (publication : Published) (epoch number needed : ℕ) (pauses : ThePauses) (drift most : ℕ) →
        IsSeen published n index bytes index → without_slewed (published n) ≡ shared_of publication epoch number needed pauses drift most →
        IsShared (published n) → IsSlotOf (word_of index) found bytes →
        reading_at found.drift found.fused clock ≡ reading_at drift (fused_span_of publication) clock }

    // So it holds the true time, if the publication held it at a moment of the machine's life, the clock that the machine
    // and the reader share keeps its drift bound over this moment and that of the reading, and the reading is no earlier.
    ensures holds { (published : ℕ → TheSpan) (n : ℕ) (index bytes : List ℕ) (found : TheSpan) (clock time : ℕ)
        (publication : Published) (epoch number needed : ℕ) (pauses : ThePauses) (drift most : ℕ) (moments : List Moment) →
        IsSeen published n index bytes index → without_slewed (published n) ≡ shared_of publication epoch number needed pauses drift most →
        IsShared (published n) → IsSlotOf (word_of index) found bytes → CanBeReadAt found.fused clock →
        HeldTrueTime moments (fused_span_of publication) → KeepsDrift drift (record { clock = clock; time = time } ∷ moments) →
        IsNoEarlier moments (fused_span_of publication) time → time ≤ max_time →
        Holds (reading_at found.drift found.fused clock) time }

    // A reading that a reader of the file may use is no wider than the machine allows, if it allows less than 2^64 - 1.
    ensures narrow { (publication : Published) (epoch number needed clock : ℕ) (pauses : ThePauses) (drift most : ℕ) →
        IsInterval publication.span → publication.clock ≤ clock → most < 2 ^ 64 - 1 →
        clock ≤ (shared_of publication epoch number needed pauses drift most).usable_until →
        (shared_of publication epoch number needed pauses drift most).usable_until ≢ 0 →
        (reading_at drift (fused_span_of publication) clock).hi - (reading_at drift (fused_span_of publication) clock).lo ≤ most }
{}

//! Starts after lives that ended by a break, and the record that is kept of them.

ghost use Rattle.std.specs.Prelude.{◌≡◌, ◌≢◌, ◌≤◌, ℕ, List, length, MatchOption};
ghost use Rattle.tt_text.specs.Line.{line_of};
ghost use Rattle.tt_text.specs.Reading.{AreNumbers};
ghost use Rattle.tt_health.specs.Pause.{IsBreakRecord, IsTextOf, breaks_in_a_row as breaks_of, breaks_told, longest_pause, moment_told, pause_of, record_after as next_record, text_of};
ghost use Rattle.tt_health.specs.declared.pauses.BreakRecord.{BreakRecord as TheRecord};

use arrayvec::ArrayVec;
use tt_text::{numbers_behind, put_line};

/// Breaks are in a row where a start comes no later than this after the record of the last one, in nanoseconds.
const BREAK_WINDOW: u64 = 60_000_000_000;

/// The pause after one break, in nanoseconds.
const FIRST_PAUSE: u64 = 100_000_000;

/// The longest pause, in nanoseconds.
const LONGEST_PAUSE: u64 = 30_000_000_000;

/// When a life broke, and why.
#[derive(Clone, Copy)]
pub struct BreakMoment {
    /// The time since 1970 by the real-time clock of the host, in nanoseconds.
    pub time: u64,
    /// The number of the reason.
    pub reason: u64,
}

/// What is kept when a life ends by a break: how many breaks came in a row, this one among them, what the monotonic
/// clock of the host showed, in nanoseconds, how many breaks there were of all lives whose records followed each
/// other, and when this one was and why, if that is known.
#[derive(Clone, Copy)]
pub struct BreakRecord {
    pub breaks: u64,
    pub clock: u64,
    pub total: u64,
    pub moment: Option<BreakMoment>,
}

/// The text of a record: `tt-break 3`, the breaks in a row, the clock reading, all breaks, the time and the reason's number, each
/// behind a space and in decimal digits, and a line feed. Where the time is not known, `tt-break 2` and the first three
/// numbers. At most 116 bytes.
pub fn record_text(last: &BreakRecord) -> ArrayVec<u8, 120>
    ensures written { result.items ≡ text_of last.now }
{
    let mut text = ArrayVec::new();
    match &last.moment {
        Some(moment) => put_line(
            &mut text,
            "tt-break 3",
            &[
                last.breaks,
                last.clock,
                last.total,
                moment.time,
                moment.reason,
            ],
        ),
        None => put_line(
            &mut text,
            "tt-break 2",
            &[last.breaks, last.clock, last.total],
        ),
    }
    text
}

/// The numbers behind this word, if there are `count` of them and nothing else stands in the text.
fn numbers_of(word: &[u8], text: &[u8], count: usize) -> Option<ArrayVec<u64, 16>>
    ensures { MatchOption result
        ((numbers : List ℕ) → AreNumbers numbers → length numbers ≡ count → text.now ≢ line_of word.now numbers)
        (λ numbers. (length numbers.items ≡ count) × (text.now ≡ line_of word.now numbers.items)) }
{
    let Some(numbers) = numbers_behind(word, text) else {
        return None;
    };
    if numbers.len() != count {
        return None;
    }
    Some(numbers)
}

/// The record of this text, if it is as [`record_text`] writes it, or `tt-break 1` with the breaks in a row and the clock
/// reading: then these breaks are all that are known. None for any other text: another version, a number above 2^64 - 1 or
/// with a leading zero or a sign, a byte too few or too many.
pub fn record_of(text: &[u8]) -> Option<BreakRecord>
    ensures read { MatchOption result ((last : TheRecord) → IsBreakRecord last → IsTextOf text.now last → ⊥) (λ last. IsTextOf text.now last) }
{
    if let Some(numbers) = numbers_of(b"tt-break 3", text, 5) {
        let moment = BreakMoment {
            time: numbers[3],
            reason: numbers[4],
        };
        return Some(BreakRecord {
            breaks: numbers[0],
            clock: numbers[1],
            total: numbers[2],
            moment: Some(moment),
        });
    }
    if let Some(numbers) = numbers_of(b"tt-break 2", text, 3) {
        return Some(BreakRecord {
            breaks: numbers[0],
            clock: numbers[1],
            total: numbers[2],
            moment: None,
        });
    }
    let Some(numbers) = numbers_of(b"tt-break 1", text, 2) else {
        return None;
    };
    Some(BreakRecord {
        breaks: numbers[0],
        clock: numbers[1],
        total: numbers[0],
        moment: None,
    })
}

/// How many breaks a record tells of, in all lives: 0 without one.
pub fn breaks_recorded(last: Option<BreakRecord>) -> u64
    ensures value { result ≡ breaks_told last }
{
    match last {
        Some(record) => record.total,
        None => 0,
    }
}

/// When the last life that broke did so, and why, as a record tells: none without one, and where the record has no time.
pub fn moment_recorded(last: Option<BreakRecord>) -> Option<BreakMoment>
    ensures value { result ≡ moment_told last }
{
    match last {
        Some(record) => record.moment,
        None => None,
    }
}

/// How many lives in a row ended by a break before a start at the clock reading `now`, in nanoseconds: those of the
/// record, if it is no more than a minute old. 0 without a record, and where its clock is above `now`: then the host was
/// started anew since.
pub fn breaks_in_a_row(last: Option<BreakRecord>, now: u64) -> u64
    ensures value { result ≡ breaks_of last now }
{
    match last {
        Some(record) if record.clock <= now && now - record.clock <= BREAK_WINDOW => {
            record.breaks
        },
        _ => 0,
    }
}

/// How long a start waits after so many breaks in a row, in nanoseconds: not at all after none, 100 ms after one, and
/// twice as long after each further one, at most 30 s.
pub fn pause_before_start(breaks: u64) -> u64
    ensures value { result ≡ pause_of breaks }
    ensures bound { result ≤ longest_pause }
{
    if breaks == 0 {
        return 0;
    }
    // After ten breaks the pause is the longest one.
    let doublings = (breaks - 1).min(9);
    let mut pause = FIRST_PAUSE;
    for _doubling in 0..doublings {
        pause = (2 * pause).min(LONGEST_PAUSE);
    }
    pause
}

/// The record of a life that ends by a break at the clock reading `now`, in nanoseconds: one more than the breaks in a
/// row before it, and one more than all breaks before it, each at most 2^64 - 1, and `moment`, if that is known.
pub fn record_after(last: Option<BreakRecord>, now: u64, moment: Option<BreakMoment>) -> BreakRecord
    ensures value { result ≡ next_record last now moment }
{
    BreakRecord {
        breaks: breaks_in_a_row(last, now).saturating_add(1),
        clock: now,
        total: breaks_recorded(last).saturating_add(1),
        moment,
    }
}

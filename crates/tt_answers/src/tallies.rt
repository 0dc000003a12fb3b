//! What the turns of a master count.

ghost use Rattle.std.specs.Prelude.{◌≡◌, ◌<◌};
ghost use Rattle.tt_answers.specs.Tallies.{no_tally, counted, unanswered_after, place_of as place_among};

use crate::turns::Turn;
use tt_master::{NoAnswer, Silence};

/// How many reasons there are why a packet is not answered.
pub const REASONS: usize = 11;

/// What some turns of a master counted. A count stays at 2^64 - 1 once it is there.
#[derive(Clone, Copy)]
pub struct Tally {
    /// How many requests were answered.
    pub answers: u64,
    /// How many packets were not answered, by the place of the reason: see [`place_of`].
    pub unanswered: [u64; REASONS],
    /// How wide the span of the last answer is, in nanoseconds.
    pub width: Option<u64>,
    /// How wide the widest span of an answer is, in nanoseconds; 0 where there was none.
    pub widest: u64,
}

impl Tally {
    /// A tally in which nothing was counted yet.
    pub fn new() -> Tally
        ensures { result ≡ no_tally }
    {
        Tally {
            answers: 0,
            unanswered: [0; REASONS],
            width: None,
            widest: 0,
        }
    }

    /// Counts what came of one more turn.
    pub fn count(&mut self, turn: Turn)
        ensures counts { self.new ≡ counted turn self.old }
    {
        match turn {
            Turn::Nothing => {}
            Turn::Answered(span) => {
                let width = span.hi() - span.lo();
                self.answers = self.answers.saturating_add(1);
                self.width = Some(width);
                self.widest = self.widest.max(width);
            }
            Turn::Unanswered(why) => self.unanswered = unanswered_after(&self.unanswered, why),
        }
    }
}

/// The counts of the reasons after one more packet was not answered.
fn unanswered_after(counts: &[u64; REASONS], why: NoAnswer) -> [u64; REASONS]
    ensures { result ≡ unanswered_after counts.now why }
{
    let mut next = *counts;
    let place = place_of(why);
    next[place] = counts[place].saturating_add(1);
    next
}

/// The place of a reason in [`Tally::unanswered`], from 0 to 10: 301, 302, 303, and then 2401 to 2408, in the order of
/// their numbers.
pub fn place_of(why: NoAnswer) -> usize
    ensures value { result ≡ place_among why }
    ensures within { result < 11 }
{
    match why {
        NoAnswer::BadMessage => 0,
        NoAnswer::OtherSource => 1,
        NoAnswer::NotRequest => 2,
        NoAnswer::Silent(Silence::Clock) => 3,
        NoAnswer::Silent(Silence::Unanswered) => 4,
        NoAnswer::Silent(Silence::Old) => 5,
        NoAnswer::Silent(Silence::Refused) => 6,
        NoAnswer::Silent(Silence::Stopped) => 7,
        NoAnswer::Silent(Silence::Leap) => 8,
        NoAnswer::Silent(Silence::Disagreed) => 9,
        NoAnswer::Silent(Silence::Stepped) => 10,
    }
}

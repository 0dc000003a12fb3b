//! What a line asks a stamper.

ghost use Rattle.std.specs.Prelude.{◌≡◌, ◌<◌, ◌≤◌, [], ◌∷◌, IfSome, codes};
ghost use Rattle.tt_span.specs.Time.{max_time};
ghost use Rattle.tt_text.specs.Line.{line_of};

use tt_publish::Reading;
use tt_span::{MAX_TIME, Span};
use tt_stamp::MAX_AHEAD;
use tt_text::numbers_behind;

/// The widest grid, in nanoseconds: a second.
pub const MAX_GRID: u64 = 1_000_000_000;

/// What a stamper is asked. All numbers are nanoseconds.
#[derive(Drop)]
pub struct Asked {
    /// The greatest stamp that was given before, 0 if there is none.
    pub last: u64,
    /// By which reading.
    pub reading: Reading,
    /// The least stamp that is accepted.
    pub floor: u64,
    /// The lower end of the lease.
    pub lease_lo: u64,
    /// The upper end of the lease, which need not be above the lower one.
    pub lease_hi: u64,
    ghost in_time: { last ≤ max_time },
}

impl Asked {
    ghost use Rattle.tt_stamp_rows.specs.Asked.{numbers_of};

    /// What this line asks, which is given with its line feed. None if it is not `row` and six numbers, if the last
    /// stamp is above the greatest time, or if the reading's ends are those of no span.
    pub fn by_line(line: &[u8]) -> Option<Asked>
        ensures { IfSome result (λ asked. line.now ≡ line_of (codes "row") (numbers_of asked)) }
    {
        let numbers = numbers_behind(b"row", line)?;
        let [last, lo, hi, floor, lease_lo, lease_hi] = *numbers.as_slice() else {
            return None;
        };
        Asked::of(last, lo, hi, floor, lease_lo, lease_hi)
    }

    /// What these numbers ask. None as for a line.
    fn of(last: u64, lo: u64, hi: u64, floor: u64, lease_lo: u64, lease_hi: u64) -> Option<Asked>
        ensures { IfSome result (λ asked. numbers_of asked ≡ last ∷ lo ∷ hi ∷ floor ∷ lease_lo ∷ lease_hi ∷ []) }
    {
        if last > MAX_TIME {
            return None;
        }
        Some(Asked {
            last,
            reading: Reading::of(Span::new(lo, hi).ok()?),
            floor,
            lease_lo,
            lease_hi,
        })
    }
}

/// What a stamper with limits of its own is asked.
#[derive(Drop)]
pub struct Limited {
    /// What it is asked.
    pub asked: Asked,
    /// How far a floor may lie ahead of the latest of the reading, in nanoseconds.
    pub ahead: u64,
    /// Of what stamps are multiples, in nanoseconds.
    pub grid: u64,
    ghost within: { ahead ≤ 10000000000 },
    ghost some: { 0 < grid },
    ghost fine: { grid ≤ 1000000000 },
}

impl Limited {
    ghost use Rattle.tt_stamp_rows.specs.Asked.{numbers_in};

    /// What this line asks, which is given with its line feed. None if it is not `row` and eight numbers, as for
    /// [`Asked::by_line`] for the first six, if the seventh is above [`MAX_AHEAD`], or if the last is 0 or above
    /// [`MAX_GRID`].
    pub fn by_line(line: &[u8]) -> Option<Limited>
        ensures { IfSome result (λ limited. line.now ≡ line_of (codes "row") (numbers_in limited)) }
    {
        let numbers = numbers_behind(b"row", line)?;
        let [last, lo, hi, floor, lease_lo, lease_hi, ahead, grid] = *numbers.as_slice() else {
            return None;
        };
        let asked = Asked::of(last, lo, hi, floor, lease_lo, lease_hi)?;
        if ahead > MAX_AHEAD || grid == 0 || grid > MAX_GRID {
            return None;
        }
        Some(Limited { asked, ahead, grid })
    }
}

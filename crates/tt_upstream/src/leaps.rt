//! Leap seconds.

ghost use Rattle.std.specs.Prelude.{◌≡◌, ◌≤◌};
ghost use Rattle.tt_span.specs.Time.{max_time};
ghost use Rattle.tt_upstream.specs.Leap.{day_end as day_end_of, announced_by as announced_by_reply, settling as settling_of, is_near as is_near_of, is_behind as is_behind_of, is_put_off as is_put_off_of, leap_number as leap_number_of};

use tt_ntp::Leap;
use tt_span::Span;

/// A day.
const DAY: u64 = 86_400_000_000_000;

/// An hour: so long after a leap second a server that announces one speaks of the end of a later day.
const HOUR: u64 = 3_600_000_000_000;

/// How long before a leap second a server is silent.
const EVE: u64 = 60_000_000_000;

/// An announced leap second: whether it is inserted or deleted, and the end of its UTC day, in nanoseconds since 1970.
#[derive(Clone, Copy)]
pub(crate) struct Announced {
    pub(crate) leap: Leap,
    pub(crate) moment: u64,
}

/// The end of the UTC day of a time.
fn day_end(time: u64) -> u64
    requires { time ≤ max_time }
    ensures { result ≡ day_end_of time }
{
    (time / DAY + 1) * DAY
}

/// What a reply with this span announces.
pub(crate) fn announced_by(leap: Leap, span: Span) -> Option<Announced>
    ensures { result ≡ announced_by_reply leap span }
{
    match leap {
        Leap::No => None,
        Leap::Inserted | Leap::Deleted => Some(Announced {
            leap,
            moment: day_end(span.lo()),
        }),
    }
}

/// How far behind an announced leap second a reply has to lie that shows that it is over: one that announces none just behind
/// it, one that announces one an hour.
fn settling(leap: Leap) -> u64
    ensures { result ≡ settling_of leap }
{
    match leap {
        Leap::No => 0,
        Leap::Inserted | Leap::Deleted => HOUR,
    }
}

/// Whether the span reaches the last minute before the announced leap second.
pub(crate) fn is_near(announced: Option<Announced>, span: Span) -> bool
    ensures { result ≡ is_near_of announced span }
{
    match announced {
        None => false,
        Some(announced) => announced.moment.saturating_sub(EVE) <= span.hi(),
    }
}

/// Whether a reply with this span is from behind the announced leap second, and shows that it is over.
fn is_behind(announced: Option<Announced>, leap: Leap, span: Span) -> bool
    ensures { result ≡ is_behind_of announced leap span }
{
    match announced {
        None => true,
        Some(announced) => announced.moment < span.lo().saturating_sub(settling(leap)),
    }
}

/// Whether a reply is put off: the announced leap second is near, and the reply does not show that it is over.
pub(crate) fn is_put_off(announced: Option<Announced>, leap: Leap, span: Span) -> bool
    ensures { result ≡ is_put_off_of announced leap span }
{
    is_near(announced, span) && !is_behind(announced, leap, span)
}

/// The number of what is announced: 0 nothing, 1 an inserted second, 2 a deleted one.
pub(crate) fn leap_number(announced: Option<Announced>) -> u64
    ensures { result ≡ leap_number_of announced }
{
    match announced {
        None => 0,
        Some(announced) => match announced.leap {
            Leap::No => 0,
            Leap::Inserted => 1,
            Leap::Deleted => 2,
        },
    }
}

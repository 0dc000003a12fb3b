//! The two steps of a commit that take a reading themselves: its stamp, and the release of pending commits.

ghost use Rattle.std.specs.Prelude.{◌≡◌, Some, None, Result};
ghost use Rattle.tt_span.specs.Interval.{Interval};
ghost use Rattle.tt_publish.specs.Looks.{Looks};
ghost use Rattle.tt_publish.specs.declared.faults.ReadFault.{ReadFault};
ghost use Rattle.tt_stamp.specs.Stamping.{IsLegalSeat};
ghost use Rattle.tt_stamp.specs.Steps.{Stamps, Begins, Releases};

use crate::books::Book;
use crate::faults::BeginFault;
use crate::sequencers::{Seat, Sequencer};
use std::sync::Wait;
use tt_publish::{Clock, ReadFault, Watch};
use tt_span::Span;

/// Begins a commit: one [`Watch::now`], and one [`Sequencer::stamp`] by the reading that this gave. So the stamp, in
/// nanoseconds, is at least the latest of a reading that was taken in this call. It lies in the lease.
///
/// Refuses as `now` does, in this order: 801, 803, 802; the seat is then as it was. Then it refuses as `stamp` does:
/// 902, 901, 903. The watch may have seen more in each case. It may wait, as `stamp` does.
pub fn begin_step<R: Wait, C: Clock>(
    rt: &R,
    sequencer: &Sequencer,
    seat: &mut Seat,
    watch: &mut Watch,
    clock: &mut C,
    floor: u64,
    lease: &Span,
) -> Result<u64, BeginFault>
    requires { seat.old.table ≡ sequencer.now }
    ensures begins { (looked : Result Interval ReadFault)
        × Looks C.gives C.failed watch.old clock.old looked watch.new clock.new
        × Begins (Stamps floor lease.now) looked seat.old result seat.new × IsLegalSeat seat.new }
{
    seat.laws();
    let reading = watch.now(clock).map_err(BeginFault::Read)?;
    sequencer
        .stamp(rt, seat, &reading, floor, lease)
        .map_err(BeginFault::Stamp)
}

/// Releases each pending commit whose stamp has surely passed: one [`Watch::now`], and one [`Book::release`] by the
/// reading that this gave. It answers how many were released.
///
/// Refuses as `now` does, in this order: 801, 803, 802. Then the book is as it was, but the watch may have seen more.
/// It takes no memory and does not wait.
pub fn release_step<C: Clock>(
    book: &mut Book,
    watch: &mut Watch,
    clock: &mut C,
) -> Result<usize, ReadFault>
    ensures { (looked : Result Interval ReadFault)
        × Looks C.gives C.failed watch.old clock.old looked watch.new clock.new
        × Releases looked book.old result book.new }
{
    let reading = watch.now(clock)?;
    Ok(book.release(&reading))
}

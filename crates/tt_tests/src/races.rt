//! Seats of one sequencer, alone, in threads of their own, and by a reading of their own.

ghost use Rattle.std.specs.Prelude.{◌≡◌, All, IfOk};
ghost use Rattle.std.specs.Thread.{IsSync};

use crate::stamps::ROWS;
use crate::turns::seen;
use std::alloc::Global;
use std::sync::Wait;
use std::test::Fail;
use std::thread;
use std::thread::Threads;
use tt_publish::{MemoryClock, Reading};
use tt_span::Span;
use tt_stamp::{Seat, Sequencer, StampFault, begin_step};

fn reading(latest: u64) -> Result<Reading, Fail> {
    Ok(Reading::of(Span::new(0, latest)?))
}

// So many stamps of one seat.
fn draw<R: Wait>(
    rt: &R,
    alloc: Global,
    sequencer: &Sequencer,
    mut seat: Seat,
    now: &Reading,
    count: u64,
) -> Result<(Seat, Vec<u64>), StampFault>
    requires { seat.table ≡ sequencer.now }
    ensures { IfOk result (λ drawn. drawn.0.table ≡ sequencer.now) }
{
    let mut stamps = Vec::new(alloc);
    for _ in 0..count {
        let stamp = sequencer.stamp(rt, &mut seat, now, 0, &Span::whole())?;
        let Ok(()) = stamps.push(stamp) else {
            return Err(StampFault::Memory);
        };
    }
    Ok((seat, stamps))
}

// So many stamps of each seat, each in a thread of its own, and the seats joined.
fn race<R: Threads + Wait + Sync>(
    rt: &R,
    alloc: Global,
    sequencer: &Sequencer,
    mut seats: Vec<Seat>,
    now: &Reading,
    count: u64,
) -> Result<(Seat, Vec<u64>), StampFault>
    requires { All (λ seat. seat.table ≡ sequencer.now) seats.items }
    ensures { IfOk result (λ drawn. drawn.0.table ≡ sequencer.now) }
{
    if seats.len() <= 1 {
        let Some(seat) = seats.pop() else {
            return Err(StampFault::Seats);
        };
        return draw(rt, alloc, sequencer, seat, now, count);
    }
    let half = seats.len() / 2;
    let Ok(others) = seats.split_off(half) else {
        return Err(StampFault::Memory);
    };
    let (first, second) = thread::join(
        rt,
        || -> Result<(Seat, Vec<u64>), StampFault>
            requires { IsSync R.row × All (λ seat. seat.table ≡ sequencer.now) seats.items }
            ensures { IfOk result (λ drawn. drawn.0.table ≡ sequencer.entry.now) }
        { race(rt, alloc, sequencer, seats, now, count) },
        || -> Result<(Seat, Vec<u64>), StampFault>
            requires { IsSync R.row × All (λ seat. seat.table ≡ sequencer.now) others.items }
            ensures { IfOk result (λ drawn. drawn.0.table ≡ sequencer.entry.now) }
        { race(rt, alloc, sequencer, others, now, count) },
    );
    let (first, mut stamps) = first?;
    let (second, more) = second?;
    let Ok(()) = stamps.extend_from_slice(&more) else {
        return Err(StampFault::Memory);
    };
    Ok((sequencer.join(first, second), stamps))
}

#[test]
fn all_threads_draw_each_stamp_once(rt: HostRuntime) -> Result<(), Fail> {
    for (threads, count, last) in [(2, 1_000, 2_099), (32, 100, 3_299)] {
        let (sequencer, seats) = Sequencer::open(rt.alloc(), threads)?;
        let now = reading(100)?;
        let (mut seat, mut stamps) = race(&rt, rt.alloc(), &sequencer, seats, &now, count)?;
        stamps.sort()?;
        assert!(rt; stamps.iter().copied().eq(100..=last));
        assert!(rt; sequencer.last(&mut seat) == Some(last));
    }
    Ok(())
}

#[test]
fn seats_share_one_row_of_stamps(rt: HostRuntime) -> Result<(), Fail> {
    let (sequencer, mut seats) = Sequencer::open(rt.alloc(), 2)?;
    let mut second = seats.pop().ok_or("a seat")?;
    let mut first = seats.pop().ok_or("a seat")?;
    let (now, whole) = (reading(100)?, Span::whole());
    assert!(rt; sequencer.stamp(&rt, &mut first, &now, 0, &whole) == Ok(100));
    assert!(rt; sequencer.stamp(&rt, &mut second, &now, 0, &whole) == Ok(101));
    assert!(rt; sequencer.last(&mut first) == Some(101));
    assert!(rt; matches!(Sequencer::open(rt.alloc(), 33), Err(StampFault::Seats)));
    assert!(rt; StampFault::Seats.number() == 904);
    Ok(())
}

/// Stamps that are wanted, each with its latest, its floor and its lease.
type Wanted = (u64, u64, (u64, u64), Result<u64, StampFault>);

/// Whether this seat gives these stamps.
fn seat_gives<R: Wait>(
    rt: &R,
    sequencer: &Sequencer,
    mut seat: Seat,
    stamps: &[Wanted],
) -> Result<bool, Fail>
    requires { seat.table ≡ sequencer.now }
{
    let mut are = true;
    for &(latest, floor, (lo, hi), wanted) in stamps {
        let (now, lease) = (reading(latest)?, Span::new(lo, hi)?);
        let stamp = sequencer.stamp(rt, &mut seat, &now, floor, &lease);
        are = are && stamp == wanted;
    }
    Ok(are)
}

/// Whether the only seat of a sequencer gives these stamps.
fn gives<R: Wait>(rt: &R, alloc: Global, stamps: &[Wanted]) -> Result<bool, Fail> {
    let (sequencer, mut seats) = Sequencer::open(alloc, 1)?;
    let seat = seats.pop().ok_or("a seat")?;
    seat_gives(rt, &sequencer, seat, stamps)
}

#[test]
fn a_seat_gives_what_a_row_does(rt: HostRuntime) -> Result<(), Fail> {
    for stamps in ROWS {
        assert!(rt; gives(&rt, rt.alloc(), stamps)?);
    }
    Ok(())
}

#[test]
fn a_commit_begins_with_a_reading_of_its_own(rt: HostRuntime) -> Result<(), Fail> {
    let (sequencer, mut seats) = Sequencer::open(rt.alloc(), 1)?;
    let mut seat = seats.pop().ok_or("a seat")?;
    let mut watch = seen(&rt, rt.alloc()).ok_or("a watch")?;
    let mut clock = MemoryClock::new(&[50], None);
    let whole = Span::whole();
    let begun = begin_step(
        &rt, &sequencer, &mut seat, &mut watch, &mut clock, 0, &whole,
    );
    assert!(rt; begun == Ok(250));
    Ok(())
}

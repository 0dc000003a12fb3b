//! Values worked out by hand.

use std::test::Fail;
use tt_publish::Reading;
use tt_span::{MAX_TIME, Span};
use tt_stamp::{Book, BookFault, Id, Receipt, Row, StampFault};

fn reading(lo: u64, hi: u64) -> Result<Reading, Fail> {
    Ok(Reading::of(Span::new(lo, hi)?))
}

/// A floor too far, times that are used up, and a lease that is over.
const FAR: Result<u64, StampFault> = Err(StampFault::FloorTooFar);

const USED_UP: Result<u64, StampFault> = Err(StampFault::UsedUp);

const OVER: Result<u64, StampFault> = Err(StampFault::LeaseOver);

/// Stamps of one row, each with its latest, its floor and its lease; and those of a new row.
pub(crate) const ROWS: [&[(u64, u64, (u64, u64), Result<u64, StampFault>)]; 5] = [
    &[
        (100, 0, (0, MAX_TIME), Ok(100)),
        (100, 0, (0, MAX_TIME), Ok(101)),
        (100, 500, (0, MAX_TIME), Ok(500)),
        (100, 0, (0, MAX_TIME), Ok(501)),
        (100, 10_000_000_101, (0, MAX_TIME), FAR),
        (100, 10_000_000_100, (0, MAX_TIME), Ok(10_000_000_100)),
    ],
    &[
        (MAX_TIME, 0, (0, MAX_TIME), Ok(MAX_TIME)),
        (MAX_TIME, 0, (0, MAX_TIME), USED_UP),
        (MAX_TIME, MAX_TIME + 1, (0, MAX_TIME), USED_UP),
    ],
    &[(0, 0, (0, MAX_TIME), Ok(0)), (0, 0, (0, MAX_TIME), Ok(1))],
    &[
        (100, 0, (150, 160), Ok(150)),
        (100, 0, (150, 160), Ok(151)),
        (100, 161, (150, 160), OVER),
        (155, 0, (150, 160), Ok(155)),
        (100, 160, (150, 160), Ok(160)),
        (100, 0, (150, 160), OVER),
        (100, 0, (170, 180), Ok(170)),
        (100, 10_000_000_101, (5, 5), FAR),
    ],
    &[
        (0, 0, (MAX_TIME, MAX_TIME), Ok(MAX_TIME)),
        (0, 0, (MAX_TIME, MAX_TIME), USED_UP),
    ],
];

#[test]
fn each_stamp_is_the_least_above_all_within_its_lease(rt: HostRuntime) -> Result<(), Fail> {
    for stamps in ROWS {
        let mut row = Row::new();
        for &(latest, floor, (lo, hi), wanted) in stamps {
            let (now, lease) = (reading(0, latest)?, Span::new(lo, hi)?);
            assert!(rt; row.stamp(&now, floor, &lease) == wanted);
        }
    }
    Ok(())
}

fn id(session: u32, number: u64) -> Id {
    Id { session, number }
}

/// The number of the refusal, or 0.
fn number_of(queued: Result<(), BookFault>) -> u16 {
    match queued {
        Ok(()) => 0,
        Err(fault) => fault.number(),
    }
}

#[test]
fn commits_wait_until_their_stamps_have_passed(rt: HostRuntime) -> Result<(), Fail> {
    let mut book = Book::new(rt.alloc());
    for (number, stamp, wanted) in [(1, 200, 0), (1, 300, 1002), (2, 200, 1003), (2, 150, 0)] {
        assert!(rt; number_of(book.queue(id(0, number), stamp)) == wanted);
    }
    for (earliest, latest, released) in [(200, 300, 1), (201, 301, 1), (201, 301, 0)] {
        let reading = reading(earliest, latest)?;
        assert!(rt; book.release(&reading) == released);
    }
    let last = Receipt {
        id: id(0, 1),
        stamp: 200,
        earliest: 201,
    };
    assert!(rt; book.is_released(id(0, 1)) == Some(last));
    // Both are released, so the session may be forgotten.
    assert!(rt; book.forget(rt.alloc(), 0) == Ok(()));
    assert!(rt; book.is_released(id(0, 1)) == None);
    Ok(())
}

#[test]
fn as_many_wait_as_may(rt: HostRuntime) -> Result<(), Fail> {
    let mut book = Book::new(rt.alloc());
    for stamp in 1..65_537 {
        assert!(rt; book.queue(id(9, stamp), stamp) == Ok(()));
    }
    assert!(rt; number_of(book.queue(id(0, 1), 65_537)) == 1001);
    assert!(rt; book.release(&reading(2, 2)?) == 1);
    assert!(rt; book.queue(id(0, 1), 65_537) == Ok(()));
    Ok(())
}

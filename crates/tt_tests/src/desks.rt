//! The service of one thread: the publication is [100, 200], made at clock 0, and no clock drifts.

use crate::sessions::{Devices, WHOLE, talk};
use std::alloc::Global;
use std::sync::Wait;
use std::test::Fail;
use tt_daemon::Fused;
use tt_publish::{MemoryClock, Watch, open};
use tt_session::{Desk, Served};
use tt_span::{Drift, Span};
use tt_stamp::{Book, Id, Row};

/// A watch that has seen the publication, and whose teller is closed.
fn watch<R: Wait>(rt: &R, alloc: Global) -> Result<Watch, Fail> {
    let fused = Fused::make(0, &[Span::new(100, 200)?], 0)?;
    let drift = Drift::new(0).ok_or("a drift")?;
    let (mut teller, mut watches) = open(rt, alloc, drift, 1)?;
    let published = teller.publish(rt, fused);
    for watch in watches.iter_mut() {
        let _ = watch.now(&mut MemoryClock::new(&[0], None));
    }
    teller.close(rt);
    published?;
    Ok(watches.pop().ok_or("a watch")?)
}

#[test]
fn a_desk_stamps_and_releases(rt: HostRuntime) -> Result<(), Fail> {
    let alloc = rt.alloc();
    let lines = b"commit 1 0\ncommit 1 0\ncommit 1 7\nafter 200\nbefore 302\nnow\n";
    let replies = b"waiting 1 200\ncommitted 1 200\ncommitted 1 200\nyes\nyes\nnow 201 301\n";
    for is_cut in [true, false] {
        let clock = MemoryClock::new(&[0, 100, 101, 101, 101, 101], None);
        let mut desk = Desk::new(0, watch(&rt, alloc)?, clock, Row::new(), Book::new(alloc));
        let how = if is_cut {
            Devices { read: 1, ..WHOLE }
        } else {
            WHOLE
        };
        let (served, writer) = talk(alloc, &mut desk, lines, how);
        assert!(rt; writer.taken() == replies.as_slice());
        let (lines, refused) = (6, 0);
        assert!(rt; served == Ok(Served { lines, refused }));
    }
    Ok(())
}

#[test]
fn a_number_that_was_refused_may_come_again(rt: HostRuntime) -> Result<(), Fail> {
    let alloc = rt.alloc();
    let mut book = Book::new(alloc);
    for number in 1..65_537 {
        let id = Id { session: 9, number };
        assert!(rt; book.queue(id, 1_000_000 + number) == Ok(()));
    }
    let clock = MemoryClock::new(&[0, 100, 101, 101], None);
    let mut desk = Desk::new(0, watch(&rt, alloc)?, clock, Row::new(), book);
    let (_served, writer) = talk(alloc, &mut desk, b"commit 1 0\ncommit 2 0\n", WHOLE);
    assert!(rt; writer.taken() == b"refused 1001\nrefused 1001\n".as_slice());
    Ok(())
}

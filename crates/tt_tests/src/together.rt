//! The replies of a turn, which are handed over step by step, over a writer that fails at each of its calls.

use crate::turns::{CLIENT, seen};
use std::alloc::Global;
use std::sync::Wait;
use std::test::Fail;
use tt_connections::{Post, Terms, Visit};
use tt_publish::MemoryClock;
use tt_session::Replies;
use tt_span::Span;
use tt_stamp::Sequencer;
use tt_stream::MemoryWriter;

const LINES: &[u8] = b"now\nnow\ncommit 1 0\nnonsense\nnow\n";

/// The replies of the first step, which stops behind the commit, and those of the second one.
const REPLIES: &[u8] = b"now 110 210\nnow 120 220\nwaiting 1 230\nrefused 1101\nnow 150 250\n";

/// The call of the writer that fails, how many bytes it has taken before, and the reply to the other session, which has the clock
/// reading that comes next: what fails leaves the steps behind it out. The 38 bytes of the first step take two writes and a
/// flush, and the 25 of the second one too, so that the seventh call is none.
const CALLS: [(u64, usize, &[u8]); 7] = [
    (1, 0, b"now 150 250\n"),
    (2, 20, b"now 150 250\n"),
    (3, 38, b"now 150 250\n"),
    (4, 38, b"now 160 260\n"),
    (5, 58, b"now 160 260\n"),
    (6, 63, b"now 160 260\n"),
    (7, 63, b"now 160 260\n"),
];

/// One turn over these lines, and then one of another session at the same post, which reads the time. Answers whether the
/// first turn was answered whole, how many bytes of its replies were written, if these are their front, and whether the
/// other session has this reply.
fn turns<R: Wait>(
    rt: &R,
    alloc: Global,
    write_fails: Option<u64>,
    reply: &[u8],
) -> Result<(bool, Option<usize>, bool), Fail> {
    let watch = seen(rt, alloc).ok_or("a watch")?;
    let (sequencer, mut seats) = Sequencer::open(alloc, 1)?;
    let seat = seats.pop().ok_or("a seat")?;
    let terms = Terms {
        lease: Span::whole(),
        stampers: None,
        ahead: 10_000,
        max_width: u64::MAX,
    };
    let clock = MemoryClock::new(&[10, 20, 30, 40, 50, 60], None);
    let post = Post::new(rt, alloc, watch, clock, seat, &sequencer, terms);
    let mut room = Replies::new();
    let (mut one, mut two) = (Visit::new(alloc), Visit::new(alloc));
    let mut writer = MemoryWriter::new(alloc, 20, write_fails);
    let (post, done) = post.turn(&CLIENT, &mut one, LINES, &mut writer, &mut room, 1);
    let mut other = MemoryWriter::new(alloc, 1000, None);
    let (_post, _) = post.turn(&CLIENT, &mut two, b"now\n", &mut other, &mut room, 1);
    let written = writer.taken();
    let front = if REPLIES.starts_with(written) {
        Some(written.len())
    } else {
        None
    };
    Ok((done.is_ok(), front, other.taken() == reply))
}

#[test]
fn replies_are_handed_over_up_to_a_commit(rt: HostRuntime) -> Result<(), Fail> {
    for (call, written, reply) in CALLS {
        let turned = turns(&rt, rt.alloc(), Some(call), reply)?;
        assert!(rt; turned == (call == 7, Some(written), true));
    }
    Ok(())
}

//! Two sessions by turns on one post, worked out by hand.

ghost use Rattle.std.specs.Prelude.{◌≡◌, false};

use std::alloc::Global;
use std::sync::Wait;
use std::test::Fail;
use tt_connections::{Post, Presence, Terms, Visit};
use tt_daemon::Fused;
use tt_publish::{MemoryClock, Watch, open};
use tt_session::Replies;
use tt_span::{Drift, Span};
use tt_stamp::Sequencer;
use tt_stream::MemoryWriter;

/// A client that never leaves, and what the clock of its device shows, if it can be read.
#[derive(Clone, Copy)]
pub(crate) struct Device {
    clock: Option<u64>,
}

pub(crate) const CLIENT: Device = Device { clock: Some(1_000) };

const UNREAD: Device = Device { clock: None };

impl Presence for Device {
    ghost says = { λ _ _ answer. answer ≡ false };

    fn has_left(&self) -> bool {
        false
    }

    fn is_broken(&self) -> bool {
        false
    }

    fn clock(&self) -> Option<u64> {
        self.clock
    }
}

/// A watch that has seen [100, 200] at 0, by a clock without drift.
pub(crate) fn seen<R: Wait>(rt: &R, alloc: Global) -> Option<Watch> {
    let (span, drift) = (Span::new(100, 200).ok()?, Drift::new(0)?);
    let fused = Fused::make(0, &[span], 0).ok()?;
    let Ok((mut teller, mut watches)) = open(rt, alloc, drift, 1) else {
        return None;
    };
    let published = teller.publish(rt, fused);
    let mut watch = watches.pop();
    if let Some(watch) = &mut watch {
        let _ = watch.now(&mut MemoryClock::new(&[0], None));
    }
    teller.close(rt);
    if published.is_err() {
        return None;
    }
    watch
}

/// This turn of a session. Fails unless exactly its replies are written.
fn turn_of<'a, 'c, R: Wait>(
    alloc: Global,
    post: Post<'a, R, MemoryClock<'c>>,
    visit: &mut Visit,
    turn: &Turn,
) -> Result<Post<'a, R, MemoryClock<'c>>, Fail> {
    if !visit.can_hear(turn.bytes.len()) {
        return Err(Fail::new("more lines than can be counted"));
    }
    let mut writer = MemoryWriter::new(alloc, 1000, None);
    let mut room = Replies::new();
    let (post, done) = post.turn(&turn.client, visit, turn.bytes, &mut writer, &mut room, 1);
    if done.is_err() || writer.taken() != turn.replies {
        return Err(Fail::new("other replies"));
    }
    Ok(post)
}

/// A turn, and how its session stands then.
#[derive(Clone, Copy)]
struct Turn {
    is_first: bool,
    client: Device,
    bytes: &'static [u8],
    replies: &'static [u8],
    is_pending: bool,
    /// How long its commit waits, without a clock and when the client's clock shows 1040.
    left: (Option<u64>, Option<u64>),
}

impl Turn {
    /// A turn of the first session or the second one, behind which no commit is pending.
    fn of(is_first: bool, bytes: &'static [u8], replies: &'static [u8]) -> Turn {
        let (is_pending, left) = (false, (None, None));
        Turn {
            is_first,
            client: CLIENT,
            bytes,
            replies,
            is_pending,
            left,
        }
    }

    /// The same, behind which a commit is pending.
    fn waits(self, client: Device, left: (Option<u64>, Option<u64>)) -> Turn {
        Turn {
            client,
            is_pending: true,
            left,
            ..self
        }
    }

    /// Fails unless the session stands so.
    fn check(&self, visit: &Visit) -> Result<(), Fail> {
        if visit.is_pending() != self.is_pending {
            return Err(Fail::new("a commit is pending, or none is"));
        }
        if (visit.left(None), visit.left(Some(1_040))) != self.left {
            return Err(Fail::new("another time is left"));
        }
        Ok(())
    }
}

/// Has two sessions take these turns.
fn take<'a, 'c, R: Wait>(
    alloc: Global,
    post: Post<'a, R, MemoryClock<'c>>,
    turns: &[Turn],
) -> Result<(), Fail> {
    let (mut one, mut two) = (Visit::new(alloc), Visit::new(alloc));
    let mut post = post;
    for turn in turns {
        let visit = if turn.is_first { &mut one } else { &mut two };
        post = turn_of(alloc, post, visit, turn)?;
        turn.check(visit)?;
    }
    one.finish(&CLIENT);
    two.finish(&CLIENT);
    Ok(())
}

#[test]
fn a_pending_commit_waits_while_another_session_goes_on(rt: HostRuntime) -> Result<(), Fail> {
    let turns = [
        // The first session commits: the stamp is the latest of its reading, and the step after that reads [160, 260].
        Turn::of(true, b"commit 1 0\n", b"waiting 1 250\n").waits(
            CLIENT,
            (Some(1_090), Some(1_050)),
        ),
        // The second one reads the time, and sends a part of a line.
        Turn::of(false, b"now\nlease 10", b"now 170 270\n"),
        // The commit of the first one is released by the reading [300, 400].
        Turn::of(true, b"commit 1 0\n", b"committed 1 250\n"),
        // Only the second one stamps in its lease. The stamps of both are different. Its step reads [320, 420].
        Turn::of(false, b"00 2000\n", b"leased 1000 2000\n"),
        Turn::of(false, b"commit 1 0\n", b"waiting 1 1000\n").waits(
            CLIENT,
            (Some(1_680), Some(1_640)),
        ),
        // Where the client's clock could not be read at the step, nothing is waited for.
        Turn::of(true, b"commit 2 0\n", b"waiting 2 1001\n").waits(UNREAD, (None, None)),
    ];
    let watch = seen(&rt, rt.alloc()).ok_or("a watch")?;
    let (sequencer, mut seats) = Sequencer::open(rt.alloc(), 1)?;
    let seat = seats.pop().ok_or("a seat")?;
    let terms = Terms {
        lease: Span::whole(),
        stampers: None,
        ahead: 10_000,
        max_width: u64::MAX,
    };
    let clock = MemoryClock::new(&[50, 60, 70, 200, 210, 220, 230, 240], None);
    let post = Post::new(&rt, rt.alloc(), watch, clock, seat, &sequencer, terms);
    take(rt.alloc(), post, &turns)
}

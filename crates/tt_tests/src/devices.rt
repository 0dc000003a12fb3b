//! Devices for tests.

ghost use Rattle.std.specs.Prelude.{◌≡◌, true, None};

use arrayvec::ArrayVec;
use std::alloc::Global;
use std::collections::VecDeque;
use std::sync::atomic::{AtomicU64, Ordering};
use std::sync::{Mutex, Wait};
use std::thread;
use std::time::Duration;
use tt_master::{Act, Master, MemoryReference};
use tt_node::Gate;
use tt_publish::{Clock, ClockFault};
use tt_rounds::{Link, LinkFault, PACKET_LEN};
use tt_stream::{ByteWriter, DeviceFault};

/// How long a gate or a link pauses where it says no, in microseconds.
const PAUSE: u64 = 200;

/// A packet that is to be received.
#[derive(Clone, Copy)]
struct Arrival {
    peer: u8,
    length: usize,
    bytes: [u8; PACKET_LEN],
}

/// A packet with these bytes, cut at the most that one may have.
fn arrival_of(peer: u8, packet: &[u8]) -> Arrival {
    let mut bytes = [0; PACKET_LEN];
    for (place, byte) in packet.iter().enumerate() {
        if place < PACKET_LEN {
            bytes[place] = *byte;
        }
    }
    Arrival {
        peer,
        length: packet.len(),
        bytes,
    }
}

/// A link with one honest master on its other side, that is source 0. Its call number `fails_at`, counted from 1,
/// fails.
#[derive(Drop)]
pub(crate) struct MasterLink<'a> {
    master: Master<MemoryReference<'a>>,
    queue: VecDeque<Arrival>,
    fails_at: Option<u64>,
    calls: u64,
    failures: u64,
}

impl<'a> MasterLink<'a> {
    /// The link to a master of this uncertainty, whose reference gives these times.
    pub(crate) fn new(
        alloc: Global,
        uncertainty: u64,
        times: &'a [u64],
        fails_at: Option<u64>,
    ) -> Self {
        MasterLink {
            master: Master::new(
                0,
                uncertainty.min(1_000_000),
                MemoryReference::new(times, None),
            ),
            queue: VecDeque::new(alloc),
            fails_at,
            calls: 0,
            failures: 0,
        }
    }

    /// Bytes come that no master sent, if there is memory for them.
    pub(crate) fn forge(&mut self, packet: &[u8]) -> bool {
        self.queue.push_back(arrival_of(0, packet)).is_ok()
    }

    /// Counts a call: whether it is the one that fails.
    fn fails(&mut self) -> bool
        ensures { self.new.failures ≡ self.old.failures }
    {
        self.calls = self.calls.saturating_add(1);
        self.fails_at == Some(self.calls)
    }
}

impl<'a> Link for MasterLink<'a> {
    ghost does = { λ _ _ _ _. Unit {0} };

    ghost failed = { λ link. link.failures };

    fn send(&mut self, peer: u8, bytes: &[u8]) -> Result<(), LinkFault> {
        if !self.fails() {
            let queued = match self.master.play2(Act::Honest, bytes) {
                Ok(Some(packet)) => self.queue.push_back(arrival_of(peer, &packet)),
                _ => Ok(()),
            };
            if queued.is_ok() {
                return Ok(());
            }
        }
        self.failures = self.failures.saturating_add(1);
        Err(LinkFault::Failed)
    }

    fn receive(&mut self, buffer: &mut [u8; PACKET_LEN]) -> Result<Option<(u8, usize)>, LinkFault> {
        if self.fails() {
            self.failures = self.failures.saturating_add(1);
            return Err(LinkFault::Failed);
        }
        let Some(packet) = self.queue.pop_front() else {
            return Ok(None);
        };
        let bytes = packet.bytes;
        *buffer = bytes;
        Ok(Some((packet.peer, packet.length.min(PACKET_LEN))))
    }

    fn failures(&self) -> u64 {
        self.failures
    }
}

/// What the threads of a node have done so far.
#[derive(Drop)]
pub(crate) struct Marks {
    /// The requests that were sent.
    pub(crate) sent: AtomicU64,
    /// The calls of worker 0 that were answered.
    pub(crate) first: AtomicU64,
    /// The calls of worker 1 that were answered.
    pub(crate) second: AtomicU64,
}

impl Marks {
    pub(crate) fn new() -> Marks {
        Marks {
            sent: AtomicU64::new(0),
            first: AtomicU64::new(0),
            second: AtomicU64::new(0),
        }
    }
}

/// When the calls of the workers may begin.
#[derive(Clone, Copy)]
pub(crate) enum Plan {
    /// The first call of this worker waits for the other one's.
    Holds(u32),
    /// Call 1 waits for the second request; until call 0 is answered, the link gives nothing.
    BetweenRounds,
    /// Worker 0 waits for the second request, worker 1 for two calls of worker 0, and call 2 of worker 0 for two of
    /// worker 1.
    InTurn,
}

/// A gate that follows a plan.
pub(crate) struct PlannedGate<'a, R> {
    pub(crate) rt: &'a R,
    pub(crate) marks: &'a Marks,
    pub(crate) plan: Plan,
}

impl<'a, R> Clone for PlannedGate<'a, R> {
    fn clone(&self) -> Result<Self, std::alloc::AllocError> {
        Ok(PlannedGate {
            rt: self.rt,
            marks: self.marks,
            plan: self.plan,
        })
    }
}

impl<'a, R> Copy for PlannedGate<'a, R> {}

impl<'a, R: std::time::Clock> Gate for PlannedGate<'a, R> {
    ghost says = { λ _ _ _ _ _. Unit {0} };

    ghost hears = { λ _ _ _ _. Unit {0} };

    fn may_pass(&mut self, worker: u32, call: u64) -> bool {
        let sent = self.marks.sent.load(Ordering::SeqCst);
        let first = self.marks.first.load(Ordering::SeqCst);
        let second = self.marks.second.load(Ordering::SeqCst);
        let open = match self.plan {
            Plan::Holds(held) => {
                let other = if held == 0 { second } else { first };
                worker != held || call > 0 || other > 0
            }
            Plan::BetweenRounds => call == 0 || sent > 1,
            Plan::InTurn => match (worker, call) {
                (0, 0) => sent > 1,
                (0, 2) => second > 1,
                (1, 0) => first > 1,
                _ => true,
            },
        };
        if !open {
            thread::sleep(self.rt, Duration::from_micros(PAUSE));
        }
        open
    }

    fn answered(&mut self, worker: u32, _call: u64) {
        let calls = match worker {
            0 => &self.marks.first,
            _ => &self.marks.second,
        };
        calls.fetch_add(1, Ordering::SeqCst);
    }
}

/// The link of a node, which marks what it sends, and gives nothing before a call of worker 0 is answered where the
/// plan wants that.
#[derive(Drop)]
pub(crate) struct MarkedLink<'a, R> {
    pub(crate) rt: &'a R,
    pub(crate) marks: &'a Marks,
    pub(crate) plan: Plan,
    pub(crate) link: MasterLink<'a>,
}

impl<'a, R: std::time::Clock> Link for MarkedLink<'a, R> {
    ghost does = { λ _ _ _ _. Unit {0} };

    ghost failed = { λ link. link.link.failures };

    fn send(&mut self, peer: u8, bytes: &[u8]) -> Result<(), LinkFault> {
        let sent = self.link.send(peer, bytes);
        self.marks.sent.fetch_add(1, Ordering::SeqCst);
        sent
    }

    fn receive(&mut self, buffer: &mut [u8; PACKET_LEN]) -> Result<Option<(u8, usize)>, LinkFault> {
        if let Plan::BetweenRounds = self.plan {
            if self.marks.first.load(Ordering::SeqCst) == 0 {
                thread::sleep(self.rt, Duration::from_micros(PAUSE));
                return Ok(None);
            }
        }
        self.link.receive(buffer)
    }

    fn failures(&self) -> u64 {
        self.link.failures()
    }
}

/// A clock that stands.
#[derive(Clone, Copy, Drop)]
pub(crate) struct StillClock(pub(crate) u64);

impl Clock for StillClock {
    ghost gives = { λ _ _ _. Unit {0} };

    ghost failed = { λ _. 0 };

    fn read(&mut self) -> Result<u64, ClockFault> {
        Ok(self.0)
    }

    fn failures(&self) -> u64 {
        0
    }
}

/// What a session writes.
pub(crate) type Page = Mutex<ArrayVec<u8, 256>>;

/// A writer on a page that others can read.
#[derive(Drop)]
pub(crate) struct PageWriter<'a, R> {
    pub(crate) rt: &'a R,
    pub(crate) page: &'a Page,
}

impl<'a, R: Wait> ByteWriter for PageWriter<'a, R> {
    ghost taken = { λ _. None };

    ghost failed = { λ _. 0 };

    ghost flushed = { λ _. true };

    fn write(&mut self, bytes: &[u8]) -> Result<usize, DeviceFault> {
        let mut page = self.page.lock(self.rt);
        for byte in bytes {
            if !page.is_full() {
                page.push(*byte);
            }
        }
        Ok(bytes.len())
    }

    fn flush(&mut self) -> Result<(), DeviceFault> {
        Ok(())
    }

    fn failures(&self) -> u64 {
        0
    }
}

/// A packet that was sent: its peer, its length, and its first byte.
pub(crate) type Sent = (u8, usize, u8);

/// A link that gives these packets in turn, each from a peer, and keeps what is sent. Its call number `fails_at`,
/// counted from 1, fails.
#[derive(Drop)]
pub(crate) struct ListLink<'a> {
    packets: &'a [(u8, &'a [u8])],
    /// How many of the packets came.
    came: usize,
    sent: ArrayVec<Sent, 8>,
    fails_at: Option<u64>,
    calls: u64,
    failures: u64,
}

impl<'a> ListLink<'a> {
    pub(crate) fn new(packets: &'a [(u8, &'a [u8])], fails_at: Option<u64>) -> Self {
        ListLink {
            packets,
            came: 0,
            sent: ArrayVec::new(),
            fails_at,
            calls: 0,
            failures: 0,
        }
    }

    /// What was sent.
    pub(crate) fn sent(&self) -> &[Sent] {
        &self.sent
    }

    /// Counts a call: whether it is the one that fails.
    fn fails(&mut self) -> bool
        ensures { self.new.failures ≡ self.old.failures }
    {
        self.calls = self.calls.saturating_add(1);
        self.fails_at == Some(self.calls)
    }
}

impl<'a> Link for ListLink<'a> {
    ghost does = { λ _ _ _ _. Unit {0} };

    ghost failed = { λ link. link.failures };

    fn send(&mut self, peer: u8, bytes: &[u8]) -> Result<(), LinkFault> {
        if self.fails() || self.sent.is_full() {
            self.failures = self.failures.saturating_add(1);
            return Err(LinkFault::Failed);
        }
        let first = bytes.first().copied().unwrap_or(0);
        self.sent.push((peer, bytes.len(), first));
        Ok(())
    }

    fn receive(&mut self, buffer: &mut [u8; PACKET_LEN]) -> Result<Option<(u8, usize)>, LinkFault> {
        if self.fails() {
            self.failures = self.failures.saturating_add(1);
            return Err(LinkFault::Failed);
        }
        let Some(&(peer, bytes)) = self.packets.get(self.came) else {
            return Ok(None);
        };
        self.came = self.came.saturating_add(1);
        let packet = arrival_of(peer, bytes);
        let bytes = packet.bytes;
        *buffer = bytes;
        Ok(Some((packet.peer, packet.length.min(PACKET_LEN))))
    }

    fn failures(&self) -> u64 {
        self.failures
    }
}

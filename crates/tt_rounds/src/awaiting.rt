//! What a link keeps of its peers: which of them are awaited in a round, how many of their packets are handed up, and how
//! many did not open.

ghost use Rattle.std.specs.Prelude.{◌≡◌, ◌≤◌, ◌↔◌, ℕ, true, is_some, count_by, replicate, length, List, slice_set, Option, Some, None, IsOk, IfSome, MatchOption};
ghost use Rattle.tt_poll.specs.Reading.{read_of2};
ghost use Rattle.tt_source.specs.Table.{TableState, Sending, CanBeCalled, source_at, take_of};
ghost use Rattle.tt_rounds.specs.Awaiting.{full_slot, slot_at, answers, poll_in, fate_of, is_handed, slots_after, slot_sent, unsent_at, unsent_after, handed_in, slot_after_all, NoneAnswers, poll_waiting};
ghost use Rattle.tt_seal.specs.Sealing.{IsBytes};
ghost use Rattle.tt_rounds.specs.Hearing.{no_opening, opening_at, heard_from};
ghost use Rattle.tt_rounds.specs.declared.awaiting.PeerSlot.{PeerSlot};

use crate::openings::{Opening, REASONS};
use arrayvec::ArrayVec;
use tt_poll::{Message2, Request2, decode2};
use tt_wire::{MAX_PACKET, Wire};

/// The most packets of one peer that a round of a [`RoundLink`] hands up: the answer to its poll, and up to three that
/// are no answer to it.
///
/// [`RoundLink`]: crate::RoundLink
pub const TURNS_PER_PEER: u8 = 4;

/// The numbers of the system's errors that make a socket useless: a descriptor that is not open, or is no socket.
const NOT_OPEN: i32 = 9;

const NOT_SOCKET: i32 = 88;

/// What became of a packet that was to be sent.
#[derive(Clone, Copy, Debug, PartialEq, Eq)]
pub(crate) enum Fate {
    /// The system took it.
    Went,
    /// It could not be sent, which says nothing of other packets.
    Lost,
    /// The socket is useless.
    Broke,
}

impl Fate {
    /// The fate of a packet whose sending failed with this error of the system, if it has a number. The packet is lost,
    /// whatever the error, unless the descriptor of the socket is not open or is no socket.
    pub(crate) fn of(code: Option<i32>) -> Fate
        ensures { result ≡ fate_of code }
    {
        match code {
            Some(number) if number == NOT_OPEN || number == NOT_SOCKET => Fate::Broke,
            _ => Fate::Lost,
        }
    }
}

/// What a round keeps of one peer.
#[derive(Clone, Copy)]
pub(crate) struct PeerSlot {
    /// The poll that was sent to the peer in this round, until its answer comes.
    poll: Option<Request2>,
    /// How many packets that do not answer the poll are still handed up in this round.
    spare: u8,
}

impl PeerSlot {
    /// A peer of a round that begins.
    fn full() -> PeerSlot
        ensures { result ≡ full_slot }
    {
        PeerSlot {
            poll: None,
            spare: TURNS_PER_PEER - 1,
        }
    }

    /// The peer after this was to be sent to it.
    fn sent(&self, bytes: &[u8], fate: Fate) -> PeerSlot
        ensures { result ≡ slot_sent fate bytes.now self.now }
    {
        PeerSlot {
            poll: match fate {
                Fate::Went => poll_of(bytes),
                _ => None,
            },
            spare: self.spare,
        }
    }

    /// Whether the bytes are an answer to the poll that is awaited.
    fn answered(&self, bytes: &[u8]) -> bool
        ensures { result ≡ answers self.now.poll (read_of2 bytes.now) }
    {
        match &self.poll {
            Some(poll) => is_answer(poll, bytes),
            None => false,
        }
    }
}

/// The poll that the bytes are, if they are one.
fn poll_of(bytes: &[u8]) -> Option<Request2>
    ensures { result ≡ poll_in (read_of2 bytes.now) }
{
    let Ok(message) = decode2(bytes) else {
        return None;
    };
    match &message {
        Message2::Request(poll) => Some(*poll),
        Message2::Answer(_) => None,
    }
}

/// Whether the bytes are an answer to this poll: by its source, to its machine, with its nonce and its epoch.
fn is_answer(poll: &Request2, bytes: &[u8]) -> bool
    ensures { result ≡ answers (Some poll.now) (read_of2 bytes.now) }
{
    let Ok(message) = decode2(bytes) else {
        return false;
    };
    match &message {
        Message2::Request(_) => false,
        Message2::Answer(answer) => {
            answer.machine() == poll.machine()
                && answer.source() == poll.source()
                && answer.nonce() == poll.nonce()
                && answer.epoch() == poll.epoch()
        }
    }
}

/// What a link keeps of its peers. Peer `i` is at place `i`.
#[derive(Drop)]
pub(crate) struct PeerTable {
    slots: [PeerSlot; 256],
    unsent: [u64; 256],
    openings: [Opening; 256],
}

impl PeerTable {
    /// A table of peers of which none is awaited, to which no packet was lost, and from which none came.
    pub(crate) fn new() -> PeerTable
        ensures slots { result.slots ≡ replicate 256 full_slot }
        ensures unsent { result.unsent ≡ replicate 256 0 }
        ensures openings { result.openings ≡ replicate 256 no_opening }
    {
        PeerTable {
            slots: [PeerSlot::full(); 256],
            unsent: [0; 256],
            openings: [Opening::none(); 256],
        }
    }

    /// Begins a round: no peer is awaited, and each of them has all its turns.
    pub(crate) fn begin(&mut self)
        ensures { self.new ≡ record self.old { slots = replicate 256 full_slot } }
    {
        let slots = [PeerSlot::full(); 256];
        self.slots = slots;
    }

    /// Notes what became of these bytes, which were to be sent to the peer. If they are a poll and went, the peer is
    /// awaited. If they were lost, it is not, and the packet is counted as unsent.
    pub(crate) fn sent(&mut self, peer: u8, bytes: &[u8], fate: Fate)
        ensures slots { self.new.slots ≡ slice_set self.old.slots peer (slot_sent fate bytes.now (slot_at self.old.slots peer)) }
        ensures unsent { self.new.unsent ≡ slice_set self.old.unsent peer (unsent_after fate (unsent_at self.old.unsent peer)) }
        ensures openings { self.new.openings ≡ self.old.openings }
        ensures others { (other : ℕ) → ¬ (other ≡ peer) → slot_at self.new.slots other ≡ slot_at self.old.slots other }
    {
        let place = usize::from(peer);
        self.slots[place] = self.slots[place].sent(bytes, fate);
        if fate == Fate::Lost {
            self.unsent[place] = self.unsent[place].saturating_add(1);
        }
    }

    /// Judges a message from this peer, and notes it. Answers whether it is handed up. An answer to the poll that is
    /// awaited always is, and ends the wait for its peer. Another message of a peer is handed up while the peer has turns
    /// to spare, and costs one of them.
    fn came(&mut self, peer: u8, message: &[u8]) -> bool
        ensures handed { result ≡ is_handed message.now (slot_at self.old.slots peer) }
        ensures after { self.new ≡ record self.old { slots = slots_after self.old.slots peer message.now } }
    {
        let place = usize::from(peer);
        if self.slots[place].answered(message) {
            self.slots[place].poll = None;
            return true;
        }
        if self.slots[place].spare == 0 {
            return false;
        }
        self.slots[place].spare -= 1;
        true
    }

    /// Opens a packet of at most 64 bytes, from this peer or from a stranger, and judges its message. Answers the peer
    /// and the message, where it is handed up. A packet that does not open under a key of its peer is counted, changes
    /// nothing else, and is not handed up. Nor is a packet of a stranger.
    pub(crate) fn hear(
        &mut self,
        wire: &Wire,
        from: Option<u8>,
        bytes: &[u8],
    ) -> Option<(u8, ArrayVec<u8, MAX_PACKET>)>
        requires short { length bytes.now ≤ 64 }
        ensures handed { MatchOption result ((heard_from wire.now self.old from bytes.now).handed ≡ None)
            (λ came. (heard_from wire.now self.old from bytes.now).handed ≡ Some (record { peer = came.0; bytes = came.1.items })) }
        ensures sender { IfSome result (λ came. from ≡ Some came.0) }
        ensures small { IfSome result (λ _. IsBytes bytes.now) }
        ensures after { self.new ≡ (heard_from wire.now self.old from bytes.now).table }
    {
        let peer = from?;
        let place = usize::from(peer);
        match wire.incoming(peer, bytes) {
            Ok(incoming) => {
                self.openings[place] = self.openings[place].opened(incoming.number);
                let message = incoming.message;
                if self.came(peer, &message) {
                    Some((peer, message))
                } else {
                    None
                }
            }
            Err(fault) => {
                self.openings[place] = self.openings[place].refused(fault);
                None
            }
        }
    }

    /// How many peers are awaited.
    pub(crate) fn awaited(&self) -> usize
        ensures { result ≡ count_by (λ slot. is_some slot.poll) self.now.slots }
    {
        self.slots.iter().filter(|slot| slot.poll.is_some()).count()
    }

    /// How many packets to this peer could not be sent so far.
    pub(crate) fn unsent(&self, peer: u8) -> u64
        ensures { result ≡ unsent_at self.now.unsent peer }
    {
        self.unsent[usize::from(peer)]
    }

    /// How many packets of this peer did not open so far, by the reasons in their order.
    pub(crate) fn unopened(&self, peer: u8) -> [u64; REASONS]
        ensures { result ≡ (opening_at self.now.openings peer).unopened }
    {
        self.openings[usize::from(peer)].unopened
    }

    /// The number of the key of the last packet of this peer that opened.
    pub(crate) fn opened(&self, peer: u8) -> Option<u32>
        ensures { result ≡ (opening_at self.now.openings peer).number }
    {
        self.openings[usize::from(peer)].number
    }
}

/// Laws of the packets of one peer in a round.
pub fn turn_laws()
    // Of all packets that come from a peer in a round, however many, at most four are handed up.
    ensures few { (sent : List ℕ) (packets : List (List ℕ)) → handed_in packets (slot_sent Fate.Went sent full_slot) ≤ 4 }
    // The answer to its poll is handed up whatever came before it.
    ensures heard { (slot : PeerSlot) (packets : List (List ℕ)) (answer : List ℕ) → NoneAnswers slot.poll packets →
        answers slot.poll (read_of2 answer) ≡ true → is_handed answer (slot_after_all packets slot) ≡ true }
    // A packet answers the poll that waits exactly if the daemon takes it.
    ensures taken { (table : TableState) (i clock : ℕ) (bytes : List ℕ) (sending : Sending) → CanBeCalled table i clock →
        (source_at table i).waiting ≡ Some sending → IsOk (take_of table i clock bytes) ↔ (answers (Some (poll_waiting table i sending)) (read_of2 bytes) ≡ true) }
{}

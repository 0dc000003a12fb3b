//! What sealed links keep.

ghost use Rattle.std.specs.Prelude.{◌≡◌, ◌⊎◌, ◌≤◌, ℕ, Bool, List, ◌∷◌, Contains, Option, Some, None, Ok, Err, IsOk};
ghost use Rattle.std.specs.declared.net.socket_addr.SocketAddr.{SocketAddr};
ghost use Rattle.tt_span.specs.Drift.{max_drift};
ghost use Rattle.tt_source.specs.Statement.{Statement};
ghost use Rattle.tt_source.specs.Table.{TableState, take_of};
ghost use Rattle.tt_seal.specs.declared.faults.SealFault.{SealFault};
ghost use Rattle.tt_seal.specs.Sealing.{SealKey, IsKey, IsBytes, HaveOwnNumbers, sealing_of, key_with};
ghost use Rattle.tt_wire.specs.declared.wires.Incoming.{Incoming};
ghost use Rattle.tt_wire.specs.Moving.{moved, moved_back};
ghost use Rattle.tt_wire.specs.Wire.{Wiring, IsWiring, Asking, keys_of, incoming_as, incoming_of, answer_of};
ghost use Rattle.tt_rounds.specs.Link.{Packet, Gift, Came};
ghost use Rattle.tt_rounds.specs.Hearing.{Arrived, Heard, heard_from, opening_at, opening_without, CameFrom, Drops};
ghost use Rattle.tt_rounds.specs.RoundLinks.{GaveLast, HandsUp, HandsUpLast};
ghost use Rattle.tt_rounds.specs.Sockets.{Datagram, Looks, SendsOver, Sent};
ghost use Rattle.tt_rounds.specs.Answering.{Desk, HandsOn, AskedSealed};
ghost use Rattle.tt_rounds.specs.Delaying.{IsSealedAnswer, IsDelayed, CostsDelay};
ghost use Rattle.tt_rounds.specs.declared.awaiting.PeerTable.{PeerTable};

use crate::sockets::PacketSocket;

/// Laws of the link of a daemon whose peers have keys.
pub fn hearing_laws()
    // What does not open changes nothing but the count of its peer, and is not handed up.
    ensures unopened { (wire : Wiring) (table : PeerTable) (peer : ℕ) (bytes : List ℕ) (fault : SealFault) → incoming_of wire peer bytes ≡ Err fault →
        (heard_from wire table (Some peer) bytes).handed ≡ None × ((heard_from wire table (Some peer) bytes).table.slots ≡ table.slots) }
    // Packets that are dropped, however many, end no wait and take no turn.
    ensures dropped { (wire : Wiring) (packets : List Arrived) (before after : PeerTable) → Drops wire packets before after → after.slots ≡ before.slots }
    // What is handed up from a peer with keys came from this peer, sealed under one of its keys, with its nonce moved.
    ensures came_sealed { (wire : Wiring) (table : PeerTable) (peer : ℕ) (first : SealKey) (others : List SealKey) (bytes : List ℕ) (packet : Packet) → IsWiring wire → IsBytes bytes →
        keys_of wire peer ≡ first ∷ others → (heard_from wire table (Some peer) bytes).handed ≡ Some packet → CameFrom (first ∷ others) wire.ahead peer bytes packet }
    // So what a round's link hands up from a peer with keys is the message of such bytes, which its socket gave
    // (`socket_laws`).
    ensures handed_up { (wire : Wiring) (first : SealKey) (others : List SealKey) (packet : Packet) → IsWiring wire → keys_of wire packet.peer ≡ first ∷ others → HandsUp wire (Came packet) →
        (bytes : List ℕ) × CameFrom (first ∷ others) wire.ahead packet.peer bytes packet }
{}

/// Laws of the link of a daemon over a socket that says what it does.
pub fn socket_laws<S: PacketSocket>()
    // What it hands up from a peer with keys is the message of the very bytes that its socket gave last: they came from an
    // address of this peer, sealed under one of its keys.
    ensures came { (wire : Wiring) (addresses : List (Option SocketAddr)) (before after : S) (packet : Packet) (first : SealKey) (others : List SealKey) → IsWiring wire →
        keys_of wire packet.peer ≡ first ∷ others → HandsUpLast S.does wire addresses before packet after →
        (bytes : List ℕ) × GaveLast S.does addresses before packet.peer bytes after × CameFrom (first ∷ others) wire.ahead packet.peer bytes packet }
    // For a message to a peer with keys it sends the sealing under the first of them, with the nonce moved, or nothing at
    // all. Before that it only looks for packets.
    ensures sealed { (wire : Wiring) (is_six : Bool) (addresses : List (Option SocketAddr)) (before after : S) (packet : Packet) (first : SealKey) (others : List SealKey) →
        keys_of wire packet.peer ≡ first ∷ others → SendsOver S.does wire is_six addresses packet before after →
        (gave : List (Option Datagram)) × (mid : S) × Looks S.does before gave mid
        × ((after ≡ mid) ⊎ ((to : SocketAddr) × S.does mid (Sent (record { address = to; bytes = sealing_of (moved wire.ahead packet.bytes) first })) after)) }
{}

/// Laws of the link of a master that answers sealed requests.
pub fn sealed_laws()
    // What is handed up came sealed under one of the keys, which is then that of the request.
    ensures came_sealed { (before after : Desk) (came gift : Gift) (packet : Packet) → HandsOn before came gift after → gift ≡ Came packet →
        AskedSealed before.asking.keys came packet after.asking.asked }
    // An answer is handed up, with its nonce moved back, at a machine that has the key of the request for the peer that it came from.
    ensures answer_opens { (asking : Asking) (number : ℕ) (key : SealKey) (message sealed : List ℕ) (wire : Wiring) (peer : ℕ) (first : SealKey) (others : List SealKey) →
        asking.asked ≡ Some number → key_with asking.keys number ≡ Some key → answer_of asking message ≡ Some sealed →
        keys_of wire peer ≡ first ∷ others → IsKey key → HaveOwnNumbers (first ∷ others) → Contains (first ∷ others) key →
        incoming_of wire peer sealed ≡ Ok (incoming_as (Some key.number) (moved_back wire.ahead message)) }
{}

/// Laws of answers that come late, again, or from elsewhere.
pub fn delay_laws()
    // What the table takes off the wire is the sealing, under a key of its source, of the answer to the very poll that waits.
    ensures taken { (wire : Wiring) (table after : TableState) (i clock : ℕ) (first : SealKey) (others : List SealKey) (bytes : List ℕ) (incoming : Incoming) → IsWiring wire → IsBytes bytes →
        keys_of wire i ≡ first ∷ others → incoming_of wire i bytes ≡ Ok incoming → take_of table i clock incoming.message.items ≡ Ok after →
        IsSealedAnswer (first ∷ others) wire.ahead table i bytes }
    // Once it has taken one, it takes no other before the next poll, and so not the same again.
    ensures once { (table after : TableState) (i clock clock' : ℕ) (bytes bytes' : List ℕ) → take_of table i clock bytes ≡ Ok after → ¬ IsOk (take_of after i clock' bytes') }
    // One that comes d later makes a statement that holds the earlier one, and is wider below by at most d.
    ensures late { (ppm d c : ℕ) (first second : Statement) → ppm ≤ max_drift → IsDelayed d first second → second.got ≤ c → CostsDelay ppm d first second c }
{}

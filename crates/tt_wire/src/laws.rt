//! What is known of the wire.

ghost use Rattle.std.specs.Prelude.{◌≡◌, ◌+◌, ◌<◌, ◌≤◌, ◌^◌, ◌↔◌, ℕ, List, ◌∷◌, Contains, length, Some, None, Ok, IsSome};
ghost use Rattle.tt_span.specs.Interval.{Interval, IsInterval};
ghost use Rattle.tt_poll.specs.declared.messages.Message2.TheVariants as message2;
ghost use Rattle.tt_poll.specs.Message.{PollRequest2, IsRequest2, answer_to2};
ghost use Rattle.tt_poll.specs.Spelling.{spelling_of2};
ghost use Rattle.tt_seal.specs.Sealing.{SealKey, IsKey, IsBytes, HaveOwnNumbers, opened_as, opened_of};
ghost use Rattle.tt_wire.specs.declared.wires.Incoming.{Incoming};
ghost use Rattle.tt_wire.specs.Moving.{moved, moved_back, moved_request};
ghost use Rattle.tt_wire.specs.Wire.{Wiring, open_wire, keys_of, outgoing_of, incoming_as, incoming_of, CameSealed, Asking, IsPolled};

/// Laws of the wire. What is moved is moved back to what it was, and the other way round. Nonce n goes out as n + ahead
/// where that is below 2^64. A request is moved to a request, and what is moved back is an answer to a request exactly if
/// it is that answer to the moved request. Over an open wire everything goes as it is. A message of at most 40 bytes is
/// always sent. What is handed up from a peer with keys came sealed under one of these keys. What is sent to a peer with
/// keys opens, as the moved message, at each end that has the first of them. A poll of a peer with keys opens at a master
/// that has the first of them, and its answer is handed up as the answer to the request.
pub fn wire_laws()
    // What is moved is moved back to what it was, and the other way round.
    ensures back { (ahead : ℕ) (bytes : List ℕ) → ahead < 2 ^ 64 → IsBytes bytes → moved_back ahead (moved ahead bytes) ≡ bytes }
    ensures forth { (ahead : ℕ) (bytes : List ℕ) → ahead < 2 ^ 64 → IsBytes bytes → moved ahead (moved_back ahead bytes) ≡ bytes }
    // Nonce n goes out as n + ahead where that is below 2^64.
    ensures counted { (ahead : ℕ) (r : PollRequest2) → IsRequest2 r → r.nonce + ahead < 2 ^ 64 →
        moved ahead (spelling_of2 (message2.Request r)) ≡ spelling_of2 (message2.Request (record r { nonce = r.nonce + ahead })) }
    // A request is moved to a request.
    ensures asked { (ahead : ℕ) (r : PollRequest2) → ahead < 2 ^ 64 → IsRequest2 r →
        IsRequest2 (moved_request ahead r) × (moved ahead (spelling_of2 (message2.Request r)) ≡ spelling_of2 (message2.Request (moved_request ahead r))) }
    // What is moved back is an answer to a request exactly if it is the same answer to the moved request.
    ensures answered { (ahead : ℕ) (r : PollRequest2) (span : Interval) (bytes : List ℕ) → ahead < 2 ^ 64 → IsRequest2 r → IsInterval span → IsBytes bytes →
        (moved_back ahead bytes ≡ spelling_of2 (message2.Answer (answer_to2 r span))) ↔ (bytes ≡ spelling_of2 (message2.Answer (answer_to2 (moved_request ahead r) span))) }
    // Over an open wire everything goes as it is.
    ensures open_sends { (peer : ℕ) (message : List ℕ) → IsBytes message → length message ≤ 64 → outgoing_of open_wire peer message ≡ Some message }
    ensures open_hands_up { (peer : ℕ) (bytes : List ℕ) → IsBytes bytes → incoming_of open_wire peer bytes ≡ Ok (incoming_as None bytes) }
    // A message of at most 40 bytes is always sent.
    ensures fits { (wire : Wiring) (peer : ℕ) (message : List ℕ) → IsBytes message → length message ≤ 40 → IsSome (outgoing_of wire peer message) }
    // What is handed up from a peer with keys came sealed under one of these keys.
    ensures came_sealed { (wire : Wiring) (peer : ℕ) (first : SealKey) (others : List SealKey) (bytes : List ℕ) (incoming : Incoming) → wire.ahead < 2 ^ 64 → IsBytes bytes →
        keys_of wire peer ≡ first ∷ others → incoming_of wire peer bytes ≡ Ok incoming → CameSealed (first ∷ others) wire.ahead bytes incoming }
    // What is sent to a peer with keys opens at an end that has the first of them, as the moved message.
    ensures sent_opens { (wire : Wiring) (peer : ℕ) (first : SealKey) (others keys : List SealKey) (message sent : List ℕ) → IsKey first → keys_of wire peer ≡ first ∷ others →
        HaveOwnNumbers keys → Contains keys first → outgoing_of wire peer message ≡ Some sent → opened_of sent keys ≡ Ok (opened_as (moved wire.ahead message) first.number) }
    // A poll of a peer with keys: the request opens at a master that has the first of them, and the answer is handed up as the answer to it.
    ensures polled { (wire : Wiring) (peer : ℕ) (first : SealKey) (others : List SealKey) (requests : Asking) (r : PollRequest2) (span : Interval) →
        wire.ahead < 2 ^ 64 → IsKey first → keys_of wire peer ≡ first ∷ others → HaveOwnNumbers (first ∷ others) → HaveOwnNumbers requests.keys → Contains requests.keys first →
        IsRequest2 r → IsInterval span → IsPolled wire peer requests first r span }
{}

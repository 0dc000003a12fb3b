//! Values worked out by hand.

use tt_master::{Act, Master, MasterFault, MemoryReference};

/// The request of machine 0 to source 1 under nonce 1.
const REQUEST: [u8; 16] = [
    0x54, 0x54, 0x50, 0x31, 0x01, 0x00, 0x01, 0x00, 0x00, 0x00, 0x00, 0x00, 0x00, 0x00, 0x00, 0x01,
];

/// The same request to another source.
const TO_OTHER: [u8; 16] = [
    0x54, 0x54, 0x50, 0x31, 0x01, 0x00, 0x02, 0x00, 0x00, 0x00, 0x00, 0x00, 0x00, 0x00, 0x00, 0x01,
];

/// The answer of source 1 to it: from 1000000000 to 1000001000.
const ANSWER: [u8; 32] = [
    0x54, 0x54, 0x50, 0x31, 0x02, 0x00, 0x01, 0x00, 0x00, 0x00, 0x00, 0x00, 0x00, 0x00, 0x00, 0x01,
    0x00, 0x00, 0x00, 0x00, 0x3b, 0x9a, 0xca, 0x00, 0x00, 0x00, 0x00, 0x00, 0x3b, 0x9a, 0xcd, 0xe8,
];

/// The same, 7 nanoseconds ahead.
const AHEAD: [u8; 32] = [
    0x54, 0x54, 0x50, 0x31, 0x02, 0x00, 0x01, 0x00, 0x00, 0x00, 0x00, 0x00, 0x00, 0x00, 0x00, 0x01,
    0x00, 0x00, 0x00, 0x00, 0x3b, 0x9a, 0xca, 0x07, 0x00, 0x00, 0x00, 0x00, 0x3b, 0x9a, 0xcd, 0xef,
];

/// What the reference shows in the middle of the answer.
const TIME: u64 = 1_000_000_500;

#[test]
fn answers_by_the_reference(rt: HostRuntime) {
    let mut master = Master::new(1, 500, MemoryReference::new(&[TIME, TIME], None));
    for (bytes, fault, number) in [
        (&TO_OTHER[..], MasterFault::OtherSource, 302),
        (&ANSWER[..], MasterFault::NotRequest, 303),
        (&REQUEST[..3], MasterFault::BadMessage, 301),
    ] {
        assert!(rt; master.answer(bytes) == Err(fault) && fault.number() == number);
    }
    assert!(rt; master.answer(&REQUEST) == Ok(ANSWER));
    assert!(rt; master.play(Act::Ahead(7), &REQUEST) == Ok(Some(AHEAD)));
}

#[test]
fn a_reference_that_fails_once(rt: HostRuntime) {
    let mut master = Master::new(1, 500, MemoryReference::new(&[TIME], Some(1)));
    assert!(rt; master.answer(&REQUEST) == Err(MasterFault::Reference));
    assert!(rt; master.answer(&REQUEST) == Ok(ANSWER));
    assert!(rt; MasterFault::Reference.number() == 304);
}

//! Values worked out by hand.

use std::test::Fail;
use tt_poll::{
    Message, Message2, Request, Request2, decode, decode2, encode_request, encode_request2,
};

/// The request of machine 0 to source 1 under nonce 1.
const REQUEST: [u8; 16] = [
    0x54, 0x54, 0x50, 0x31, 0x01, 0x00, 0x01, 0x00, 0x00, 0x00, 0x00, 0x00, 0x00, 0x00, 0x00, 0x01,
];

/// The answer of source 1 to it with its two ends exchanged: from 1000001000 to 1000000000.
const EXCHANGED: [u8; 32] = [
    0x54, 0x54, 0x50, 0x31, 0x02, 0x00, 0x01, 0x00, 0x00, 0x00, 0x00, 0x00, 0x00, 0x00, 0x00, 0x01,
    0x00, 0x00, 0x00, 0x00, 0x3b, 0x9a, 0xcd, 0xe8, 0x00, 0x00, 0x00, 0x00, 0x3b, 0x9a, 0xca, 0x00,
];

/// The request in the machine's first life.
const REQUEST2: [u8; 24] = [
    0x54, 0x54, 0x50, 0x32, 0x01, 0x00, 0x01, 0x00, 0x00, 0x00, 0x00, 0x00, 0x00, 0x00, 0x00, 0x01,
    0x00, 0x00, 0x00, 0x00, 0x00, 0x00, 0x00, 0x01,
];

#[test]
fn spells_requests(rt: HostRuntime) -> Result<(), Fail> {
    let request = Request::new(0, 1, 1)?;
    assert!(rt; encode_request(&request) == REQUEST);
    assert!(rt; decode(&REQUEST) == Ok(Message::Request(request)));
    let request = Request2::new(0, 1, 1, 1)?;
    assert!(rt; encode_request2(&request) == REQUEST2);
    assert!(rt; decode2(&REQUEST2) == Ok(Message2::Request(request)));
    Ok(())
}

/// The bytes with another one at this place.
fn changed<const N: usize>(mut bytes: [u8; N], place: usize, byte: u8) -> [u8; N] {
    if place < N {
        bytes[place] = byte;
    }
    bytes
}

/// The number by which the bytes are refused, or 0.
fn number_of(bytes: &[u8]) -> u16 {
    match decode(bytes) {
        Ok(_) => 0,
        Err(fault) => fault.number(),
    }
}

/// The same for messages with an epoch.
fn number_of2(bytes: &[u8]) -> u16 {
    match decode2(bytes) {
        Ok(_) => 0,
        Err(fault) => fault.number(),
    }
}

#[test]
fn refuses_what_is_no_message(rt: HostRuntime) {
    for (place, byte, number) in [
        (0, 0x55, 202),
        (4, 0x02, 203),
        (7, 0x01, 204),
        (5, 0x08, 205),
        (15, 0x00, 206),
    ] {
        assert!(rt; number_of(&changed(REQUEST, place, byte)) == number);
    }
    assert!(rt; number_of(&REQUEST[..15]) == 201);
    assert!(rt; number_of(&EXCHANGED) == 207);
    assert!(rt; number_of2(&REQUEST2[..23]) == 201);
    assert!(rt; number_of2(&changed(REQUEST2, 23, 0)) == 208);
}

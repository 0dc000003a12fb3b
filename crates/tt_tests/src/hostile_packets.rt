//! Packets that are cut, changed or not asked for.

use std::test::Fail;
use tt_daemon::{Config, Daemon};
use tt_span::Drift;

/// The answer of source 0 to the first poll of machine 0 in its first life: [1000, 2000].
const ANSWER: [u8; 40] = [
    0x54, 0x54, 0x50, 0x32, 2, 0, 0, 0, 0, 0, 0, 0, 0, 0, 0, 1, 0, 0, 0, 0, 0, 0, 0, 1, 0, 0, 0, 0,
    0, 0, 0x03, 0xe8, 0, 0, 0, 0, 0, 0, 0x07, 0xd0,
];

/// The answer with another byte at this place.
fn changed(place: usize, value: u8) -> [u8; 40] {
    let mut bytes = ANSWER;
    if let Some(byte) = bytes.get_mut(place) {
        *byte = value;
    }
    bytes
}

#[test]
fn an_answer_is_taken_whole_or_not_at_all(rt: HostRuntime) -> Result<(), Fail> {
    let drift = Drift::new(0).ok_or("a drift")?;
    let mut daemon = Daemon::new(0, &Config::new(1, 0, drift, 1)?, 1);
    let _request = daemon.poll(0, 0)?;
    let mut long = [0; 64];
    long[..40].copy_from_slice(&ANSWER);
    for length in 0..65 {
        let cut = long.get(..length).ok_or("a front")?;
        assert!(rt; length == 40 || daemon.take(0, 0, cut).is_err());
    }
    // Another byte in front of the span, which may be any.
    for place in 0..24 {
        for value in 0..=255 {
            let bytes = changed(place, value);
            assert!(rt; bytes == ANSWER || daemon.take(0, 0, &bytes).is_err());
        }
    }
    // A flood in front of the answer.
    for _ in 0..1000 {
        assert!(rt; daemon.take(0, 0, &[0xFF; 40]).is_err());
    }
    assert!(rt; daemon.fuse(0).is_err());
    assert!(rt; daemon.take(0, 0, &ANSWER).is_ok());
    assert!(rt; daemon.take(0, 0, &ANSWER).is_err());
    let fused = daemon.fuse(0)?;
    assert!(rt; (fused.span().lo(), fused.span().hi()) == (1000, 2000));
    Ok(())
}

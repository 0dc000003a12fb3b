//! What others compute: the vectors of RFC 4231. And how keys are shown.

use std::process::Abort;
use std::test::Fail;
use tt_ntp::{KeyHash, PacketKey};
use tt_seal::{KEY_LEN, Key, hmac_sha256};

/// The key with the bytes 1 to 25.
const KEY_4: [u8; 25] = [
    1, 2, 3, 4, 5, 6, 7, 8, 9, 10, 11, 12, 13, 14, 15, 16, 17, 18, 19, 20, 21, 22, 23, 24, 25,
];

/// Compares with what the RFC gives in hexadecimal digits: a digest, of case 5 its first 16 bytes.
fn check(rt: &impl Abort, key: &[u8], text: &[u8], digits: &str) -> Result<(), Fail> {
    let mut expected = [0; 32];
    let len = digits.len().min(64) / 2;
    hex::decode_to_slice(digits, &mut expected[..len])?;
    assert!(rt; hmac_sha256(key, text)[..len] == expected[..len]);
    Ok(())
}

/// RFC 4231, sections 4.2 to 4.8.
#[test]
fn vectors(rt: HostRuntime) -> Result<(), Fail> {
    let cases: [(&[u8], &[u8], &str); 7] = [
        (
            &[0x0b; 20],
            b"Hi There",
            "b0344c61d8db38535ca8afceaf0bf12b881dc200c9833da726e9376c2e32cff7",
        ),
        (
            b"Jefe",
            b"what do ya want for nothing?",
            "5bdcc146bf60754e6a042426089575c75a003f089d2739839dec58b964ec3843",
        ),
        (
            &[0xaa; 20],
            &[0xdd; 50],
            "773ea91e36800e46854db8ebd09181a72959098b3ef8c122d9635514ced565fe",
        ),
        (
            &KEY_4,
            &[0xcd; 50],
            "82558a389a443c0ea4cc819899f2083a85f0faa3e578f8077a2e3ff46729665b",
        ),
        (
            &[0x0c; 20],
            b"Test With Truncation",
            "a3b6167473100ee06e0c796c2955552b",
        ),
        (
            &[0xaa; 131],
            b"Test Using Larger Than Block-Size Key - Hash Key First",
            "60e431591ee0b67f0d8a26aacbf5b77f8e0bc6213728c5140546040f0ee37f54",
        ),
        (
            &[0xaa; 131],
            b"This is a test using a larger than block-size key and a larger than block-size data. The key needs to be hashed before being used by the HMAC algorithm.",
            "9b09ffa71b942fcb27635fbcd5b0e944bfdc63644f0713938a7f51535c3a35e2",
        ),
    ];
    for (key, text, digits) in cases {
        check(&rt, key, text, digits)?;
    }
    Ok(())
}

#[test]
fn keys_are_shown_by_their_numbers(rt: HostRuntime) -> Result<(), Fail> {
    let sealing = Key::new(7, [5; KEY_LEN]);
    let packets = PacketKey::new(7, KeyHash::Sha1, b"secret").ok_or("a key")?;
    let shown = format!(in rt.alloc(); "{:?} {:?}", sealing, packets)?;
    assert!(rt; shown.as_str() == "Key(7) PacketKey(7)");
    Ok(())
}

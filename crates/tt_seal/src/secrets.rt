//! Comparing what is secret.

ghost use Rattle.std.specs.Prelude.{◌≡◌};
ghost use Rattle.std.specs.Str.{bytes_eq};

/// Whether two secrets, as tags or digests, have the same bytes. Of two that are equally long it reads each byte, also behind one
/// that differs.
pub fn is_same_secret(one: &[u8], other: &[u8]) -> bool
    ensures value { result ≡ bytes_eq one.now other.now }
{
    if one.len() != other.len() {
        return false;
    }
    let mut differing = 0;
    'bytes: for i in 0..one.len() {
        differing |= one[i] ^ other[i];
    }
    differing == 0
}

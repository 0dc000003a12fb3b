//! Whether the monotonic clock of a process is that of the host.

ghost use Rattle.std.specs.Prelude.{◌≡◌, Some, None, MatchOption};
ghost use Rattle.tt_shared.specs.Host.{after_spaces as behind_spaces, after_zero as behind_zero, is_host_clock as is_clock_of_host};

/// The bytes behind the spaces at the front.
fn after_spaces(bytes: &[u8]) -> &[u8]
    ensures { result.now ≡ behind_spaces bytes.now }
{
    for place in 0..bytes.len() {
        if bytes[place] != b' ' {
            return &bytes[place..];
        }
    }
    &[]
}

/// The bytes behind a space, more spaces or none, and the digit 0, if they begin so.
fn after_zero(bytes: &[u8]) -> Option<&[u8]>
    ensures { MatchOption result (behind_zero bytes.now ≡ None) (λ rest. behind_zero bytes.now ≡ Some rest.now) }
{
    let Some(rest) = bytes.strip_prefix(b" ") else {
        return None;
    };
    after_spaces(rest).strip_prefix(b"0")
}

/// Whether the text of `/proc/self/timens_offsets` of a process says that its monotonic clock is that of the host: its
/// offset is 0 seconds and 0 nanoseconds. Its first line is then `monotonic`, and two zeros, each behind a space or more.
pub fn is_host_clock(text: &[u8]) -> bool
    ensures value { result ≡ is_clock_of_host text.now }
{
    let Some(rest) = text.strip_prefix(b"monotonic") else {
        return false;
    };
    let Some(rest) = after_zero(rest) else {
        return false;
    };
    let Some(rest) = after_zero(rest) else {
        return false;
    };
    rest.strip_prefix(b"\n").is_some()
}

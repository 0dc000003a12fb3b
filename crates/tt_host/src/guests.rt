//! What the host tells a guest of its clock.

ghost use Rattle.std.specs.Prelude.{◌≡◌, ◌≤◌, length};
ghost use Rattle.tt_host.specs.Guest.{disruptions_of, kind_of, marker_of, version_of};

/// The first number of a page of vmclock: `VCLK`.
const MAGIC: u32 = 0x4b4c_4356;

/// The length of the part of the page that is read, in bytes.
const PART_LEN: usize = 24;

/// The first number of the page.
fn kind(bytes: &[u8]) -> u32
    requires { 24 ≤ length bytes.now }
    ensures { result ≡ kind_of bytes.now }
{
    u32::from_le_bytes([bytes[0], bytes[1], bytes[2], bytes[3]])
}

/// The version of the page.
fn version(bytes: &[u8]) -> u16
    requires { 24 ≤ length bytes.now }
    ensures { result ≡ version_of bytes.now }
{
    u16::from_le_bytes([bytes[8], bytes[9]])
}

/// The counter of disruptions of the page.
fn marker(bytes: &[u8]) -> u64
    requires { 24 ≤ length bytes.now }
    ensures { result ≡ marker_of bytes.now }
{
    let part = &bytes[16..24];
    u64::from_le_bytes([
        part[0], part[1], part[2], part[3], part[4], part[5], part[6], part[7],
    ])
}

/// The counter of disruptions in a page of vmclock, as the Linux kernel shows it in `/dev/vmclock0`. It changes when the
/// clock of the guest was disrupted: the guest was paused, moved to another host, or taken back to a snapshot.
///
/// All numbers are little endian: 0..4 is 0x4b4c4356, 8..10 the version, which is 1, and 16..24 the counter. None where
/// the first number or the version is another, or fewer than 24 bytes are there. What else the page has is not read.
pub fn disruptions_in(bytes: &[u8]) -> Option<u64>
    ensures value { result ≡ disruptions_of bytes.now }
{
    if bytes.len() < PART_LEN || kind(bytes) != MAGIC || version(bytes) != 1 {
        return None;
    }
    Some(marker(bytes))
}

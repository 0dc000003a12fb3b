//! The head of a shared file: all bytes before its slots.

ghost use Rattle.std.specs.Prelude.{◌≡◌, ◌==◌, if◌then◌else◌, List, ℕ, length, slice_index, slice_range, Ok, IfOk, IfErr};
ghost use Rattle.tt_host.specs.declared.clocks.HostClock.{HostClock as TheClock};
ghost use Rattle.tt_host.specs.declared.clocks.HostClock.TheVariants.{Monotonic, Raw};
ghost use Rattle.tt_shared.specs.Head.{head_of, index_by};
ghost use Rattle.tt_shared.specs.Layout.{head_len};
ghost use Rattle.tt_shared.specs.declared.faults.SharedFault.TheVariants.{BadFile};

use crate::faults::SharedFault;
use crate::layout::{FILE_LEN, HEAD_LEN};
use tt_host::HostClock;

/// The length of the name of a boot, in bytes.
pub const BOOT_LEN: usize = 36;

/// What the head of a shared file says, beside the boot.
#[derive(Clone, Copy, Debug, PartialEq, Eq)]
pub struct Head {
    /// The index: eight counters of one byte.
    pub index: [u8; 8],
    /// The clock of the file: its first bases are by this clock.
    pub clock: HostClock,
}

impl Head {
    /// The index of a head, if it names this clock. A writer goes on in no file by another clock.
    pub(crate) fn index_by(&self, clock: HostClock) -> Option<[u8; 8]>
        ensures value { result ≡ index_by self.now clock }
    {
        if self.clock.number() != clock.number() {
            return None;
        }
        Some(self.index)
    }
}

/// The head of a file of this boot of the host, by this clock, with these counters of the index. Never refuses.
#[tactic(auto, unfolding(crate::specs::Head::head_of))]
pub fn encode_head(index: &[u8; 8], boot: &[u8; BOOT_LEN], clock: HostClock) -> [u8; HEAD_LEN]
    ensures { result ≡ head_of index.now boot.now clock }
{
    let mut bytes = [0; HEAD_LEN];
    bytes[24..60].copy_from_slice(boot);
    bytes[16..24].copy_from_slice(index);
    bytes[8..16].copy_from_slice(&u64::from(clock.number()).to_le_bytes());
    bytes[4..8].copy_from_slice(&(FILE_LEN as u32).to_le_bytes());
    bytes[..4].copy_from_slice(b"TTS3");
    bytes
}

/// The eight bytes where the index stands.
fn index_in(bytes: &[u8]) -> [u8; 8]
    requires { length bytes.now ≡ head_len }
    ensures { result ≡ slice_range bytes.now 16 24 }
{
    let mut index = [0; 8];
    index.copy_from_slice(&bytes[16..24]);
    index
}

/// The only clock that these bytes can name, if they are a head: its number begins with this byte.
fn clock_in(bytes: &[u8]) -> HostClock
    requires { length bytes.now ≡ head_len }
    ensures { result ≡ (if slice_index bytes.now 8 == 1 then Monotonic else Raw) }
{
    if bytes[8] == 1 {
        HostClock::Monotonic
    } else {
        HostClock::Raw
    }
}

/// The index and the clock in the head of a file of this boot of the host. Refuses with 1702 `BadFile` where the bytes
/// are not such a head: another length or beginning, a clock that is not 1 or 4, another boot, or a byte behind the boot
/// that is not 0.
pub fn decode_head(bytes: &[u8], boot: &[u8; BOOT_LEN]) -> Result<Head, SharedFault>
    // If an index and a clock are read, the bytes are their head, each of them.
    ensures found { IfOk result (λ head. bytes.now ≡ head_of head.index boot.now head.clock) }
    // If the bytes are the head of an index and a clock, these are read.
    ensures taken { (index : List ℕ) (clock : TheClock) → length index ≡ 8 → bytes.now ≡ head_of index boot.now clock →
        result ≡ Ok (record { index = index; clock = clock }) }
    ensures refused { IfErr result (λ fault. fault ≡ BadFile) }
{
    if bytes.len() != HEAD_LEN {
        return Err(SharedFault::BadFile);
    }
    let index = index_in(bytes);
    let clock = clock_in(bytes);
    if bytes != encode_head(&index, boot, clock).as_slice() {
        return Err(SharedFault::BadFile);
    }
    Ok(Head { index, clock })
}

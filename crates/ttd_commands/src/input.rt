//! Reads the whole input.

ghost use Rattle.std.specs.Prelude.{◌≡◌, ◌≢◌, ◌<◌, ◌≤◌, length, vec_len, IfOk, IfErr, OnOk, IfSome, IsErrOf};
ghost use Rattle.std.specs.Io.KnownBytes.{IsAtEnd};
ghost use Rattle.tt_stream.specs.Counts.{HasFailed};
ghost use Rattle.tt_stream.specs.DeviceBytes.{ReadsOn};
ghost use Rattle.ttd_commands.specs.Input.{IsInputFault, input_fault_of, most_history};

use crate::faults::Fault;
use std::alloc::Global;
use tt_stream::{ByteReader, ReadFault, read_to_end};

/// The most bytes of input for all commands except `judge`.
pub const MOST_INPUT: usize = 1_048_576;

/// The most bytes of input for `judge`: 1 GiB.
pub const MOST_HISTORY: usize = 1_073_741_824;

impl From<ReadFault> for Fault {
    ghost from_gives = { λ read fault. fault ≡ input_fault_of read };

    fn from(read: ReadFault) -> Fault {
        match read {
            ReadFault::Failed | ReadFault::UsedUp => Fault::ReadFailed,
            ReadFault::TooLong => Fault::BadInput,
            ReadFault::Memory => Fault::Memory,
        }
    }
}

/// Reads the input to its end. Refuses with 1603 `BadInput` where it has more than `most` bytes, with 1604 `ReadFailed`
/// where the reader failed, and with 1 `Memory`. There are enough reads, since each read but the last gives a byte.
pub(crate) fn read_input<R: ByteReader>(
    alloc: Global,
    input: &mut R,
    most: usize,
) -> Result<Vec<u8>, Fault>
    requires { most ≤ most_history }
    ensures whole { IfOk result (λ bytes. IfSome (R.left input.old) (λ all. all ≡ bytes.items)) }
    ensures short { IfOk result (λ bytes. vec_len bytes ≤ most) }
    ensures end { OnOk result (IsAtEnd (R.left input.new)) }
    ensures failed { IsErrOf result Fault.ReadFailed → HasFailed (R.failed input.old) (R.failed input.new) }
    ensures too_long { IsErrOf result Fault.BadInput → IfSome (R.left input.old) (λ all. most < length all) }
    ensures faults { IfErr result IsInputFault }
    ensures sound { (result ≢ Err Fault.ReadFailed) → R.failed input.new ≡ R.failed input.old }
    ensures rest { ReadsOn (R.left input.old) (R.left input.new) }
{
    Ok(read_to_end(alloc, input, most, most as u32 + 1)?)
}

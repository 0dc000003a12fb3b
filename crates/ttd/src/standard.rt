//! The descriptors 0 to 2, which are standard input, output and error.

ghost use Rattle.std.specs.Prelude.{◌≡◌};
ghost use Rattle.ttd.specs.Standard.{is_standard};

use crate::faults::ServiceFault;
use std::fs::{File, Files};
use std::io::Eprint;
use std::os::fd::{AsRawFd, IntoRawFd};

/// What stands in for a descriptor that is closed: its end comes at once, and it takes no bytes.
const NOTHING: &str = "/dev/null";

/// Whether a descriptor is that of standard input, output or error.
fn is_standard(descriptor: i32) -> bool
    ensures { result ≡ is_standard descriptor }
{
    0 <= descriptor && descriptor <= 2
}

/// Opens `/dev/null` for reading at each of the descriptors 0 to 2 that is closed, for the life of the process. So
/// nothing that is opened later is ever written to as if it were standard output or standard error.
///
/// Refuses with 1604 `ReadFailed` where `/dev/null` can't be opened, and standard error says why.
pub(crate) fn fill_standard<H: Files<File = File> + Eprint>(rt: &H) -> Result<(), ServiceFault> {
    for _ in 0..4 {
        let file = match File::open(rt, NOTHING) {
            Ok(file) => file,
            Err(error) => {
                let _ = eprint!(rt; "ttd: {NOTHING}: {error}\n");
                return Err(ServiceFault::ReadFailed);
            }
        };
        if !is_standard(file.as_raw_fd()) {
            return Ok(());
        }
        let _ = file.into_raw_fd();
    }
    Err(ServiceFault::ReadFailed)
}

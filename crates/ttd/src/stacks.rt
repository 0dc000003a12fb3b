//! The stack of the main thread, which the operating system limits.

ghost use Rattle.std.specs.Prelude.{◌≡◌};
ghost use Rattle.ttd.specs.Stack.{is_small};

use crate::faults::ServiceFault;
use std::io::Eprint;
use tt_host::stack_limit;

/// The least stack with which a machine or a master is started, in bytes: 2 MiB. Without
/// optimization a machine of 16 masters takes 1.1 MiB, with it less than 0.6 MiB.
const LEAST_STACK: u64 = 2_097_152;

/// Whether a limit is below the least stack. One that is not known is none.
fn is_small(limit: Option<u64>) -> bool
    ensures { result ≡ is_small limit }
{
    match limit {
        Some(limit) => limit < LEAST_STACK,
        None => false,
    }
}

/// Whether this argument, the first one, asks for a service that runs until it is ended: `serve` or `master`.
fn needs_stack(word: &str) -> bool {
    word == "serve" || word == "master"
}

/// Refuses with 1831 `SmallStack` where arguments ask for a machine or a master and the stack of this process is limited to less
/// than 2 MiB: later, in the midst of its work, the operating system would end the process without a word. Standard error says
/// how large it may be.
pub(crate) fn check_stack<H: Eprint>(rt: &H, words: &[String]) -> Result<(), ServiceFault> {
    match words.first() {
        Some(word) if needs_stack(word.as_str()) => {}
        _ => return Ok(()),
    }
    let limit = stack_limit();
    if !is_small(limit) {
        return Ok(());
    }
    let bytes = limit.unwrap_or(0);
    let _ = eprint!(rt;
        "ttd: the stack is limited to {bytes} bytes, and {LEAST_STACK} are needed: ulimit -s 2048\n"
    );
    Err(ServiceFault::SmallStack)
}

//! The program `ttd`: the commands of `ttd_commands`, and the services, which talk to other processes: `master` answers
//! polls (`ttd_masters`), `serve` runs a machine, `ask` sends lines to a machine, `read` reads the time that a machine shares
//! in a file, `top` shows its status, and `key` makes a line for a file of keys.
//!
//! [`run`](program::run) does what the arguments ask for, with the process's standard input and standard output. A
//! refusal is also explained in a sentence on standard error.
//!
//! - `arguments`: the arguments with which the program was started. `program`: what they ask for is done.
//! - `commands`: what is said of a command that has ended. `services`: the services, and how each ended.
//! - `making`: the service `key`. `explaining`: the command `explain`.
//! - `lines`: lines from a device. `asking`: the service `ask`. `showing`: how bytes of another process are shown.
//! - `reading`: the service `read`. `serving`: the service `serve`. `checking`: `serve --check`. `places`: files that are one. `standard`: the descriptors 0 to 2.
//! - `stacks`: the stack of the main thread.
//! - `watching`: the service `top`. `faults`: why a service refuses.
#![tactic(auto)]

mod arguments;
mod asking;
mod checking;
mod commands;
mod explaining;
mod faults;
mod lines;
mod making;
mod places;
mod program;
mod reading;
mod services;
mod serving;
mod showing;
mod stacks;
mod standard;
mod watching;

use arguments::words_given;
use explaining::{asked_of, explain_asked};
use program::{reject, run};
use stacks::check_stack;
use std::alloc::AllocError;
use std::process::ExitCode;
use tt_host::{ByClock, HostClock};
use tt_stream::Counted;
use ttd_words::{WordsFault, explain, refuse};

fn main(rt: HostRuntime) -> ExitCode {
    let by_clock = ByClock::new(rt, HostClock::Monotonic);
    let mut input = Counted::new(rt.stdin());
    let mut output = Counted::new(rt.stdout());
    let status = match words_given(&rt) {
        Ok(words) => match check_stack(&rt, words.as_slice()) {
            Ok(()) => match asked_of(words.as_slice()) {
                Some(asked) => explain_asked(&rt, asked, &mut output),
                None => run(&by_clock, words.as_slice(), &mut input, &mut output),
            },
            Err(fault) => {
                explain(&rt, u64::from(fault.number()), &fault);
                refuse(&mut output, fault.number(), fault.status())
            }
        },
        Err(AllocError) => reject(&rt, &[], WordsFault::Memory, &mut output),
    };
    ExitCode::from(status)
}

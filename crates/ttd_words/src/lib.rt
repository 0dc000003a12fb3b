//! The command line of the program `ttd`: what its arguments ask for, and how it answers and ends.
//!
//! It is one clap `Command`, with a subcommand for each command of the program. [`read_words`] says what the arguments
//! after the program's name ask for, or that they are invalid. [`help_text`] gives the help if they ask for it.
//! [`mistake_text`] says what is wrong if they are invalid.
//!
//! ```text
//! let words = &["age", "--sent", "500", "--got", "900", "--clock", "30000000900"];
//! let asked = read_words(alloc, words)?;
//! // Asked::Run(Command::Age { drift, sent: 500, got: 900, clock: 30_000_000_900 }), with a drift of 200
//!
//! let asked = read_words(alloc, &["age", "--help"])?;        // Asked::Help
//! let text = help_text(alloc, &["age", "--help"])?;
//! ```
//!
//! The meaning of the arguments is a definition, `asked_of` in `specs/Reading.antt`. It stands on the definitions of
//! clap, which say from a command and the arguments alone whether clap takes them, and what it finds in them.
//! `specs/CommandLine.antt` gives the command. So it is proved which arguments are refused, that the value of each
//! option goes where it belongs, and what value an option has if it was left out. The text of the help is clap's own,
//! and is only tested.
//!
//! - `requests`: what arguments can ask for. `faults`: why they are rejected.
//! - `options`: what clap is told of an option or a positional argument. `commands`: the commands with tables of theirs, and
//!   `tree`: the whole command line. `help` and `service_help`: the texts of the help.
//! - `values`: what was given for an option. `masters`: what the time of a master stands on. [`words`]: what the
//!   arguments ask for. `texts`: the help, and what is wrong.
//! - `ending`: how the program ends. `refusals`: what is written, and what is said of a refusal. `sentences`: what the
//!   refusals of a machine mean.
//!
//! To add a command, add its options to `specs/CommandLine.antt` (and its name to the line `unfolding` of `ttd_app`), a
//! table and itself to `commands`, its meaning to `specs/Reading.antt` and `words`, and a place for it to `all_taken` of
//! `proofs/TakenWords.antt`.
#![tactic(auto)]

mod commands;
mod ending;
mod faults;
mod help;
mod masters;
mod options;
mod refusals;
mod requests;
mod sentences;
mod service_help;
mod texts;
mod tree;
mod values;
pub mod words;

pub use ending::Status;
pub use faults::{Given, TimeOption, WordsFault};
pub use refusals::{end_with, explain, explain_unwritten, refuse, write};
pub use requests::{Asked, Command, MasterTime, NtpTime, Offset, Peer, Service, Side, TopPlace};
pub use sentences::sentence_of;
pub use texts::{help_text, mistake_text, usage_text};
pub use words::{is_service, read_words, word_laws};

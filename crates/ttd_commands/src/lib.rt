//! The commands of the program `ttd`. A command reads its whole input, does what the arguments ask for, and writes one
//! answer.
//!
//! - `age` reads the answer of a time source to a poll, in hex. It prints `aged LO HI`, the span that holds the true
//!   time when the clock shows a later reading.
//! - `fuse` reads the spans of sources as text, and prints their fusion with its certificate and suspects.
//! - `check` reads the same spans and a certificate, and prints `valid` if the certificate proves its claim.
//! - `run` reads a script, and prints the report on its run.
//! - `trace` reads a script, and prints each event of its run with its reply.
//! - `twin` reads a script, and prints the twin of one of its readings.
//! - `picture` reads a script, and draws its run as a document in SVG.
//! - `live` reads a script, runs its machine in threads, and prints how many readings there were and how many were
//!   wrong.
//! - `judge` reads a history of commits, and prints how many of them contradict external consistency, and the first of
//!   these; and the same of the terms and the stamps of each shard, if a commit names one.
//!
//! A refusal is answered with the one line `refused N`. N is the number of the first refusal in this order: invalid
//! arguments (1601), an input that is too long (1603), and then the refusals of the command:
//!
//! - `age`: not hex (1602), not a valid message (201 to 208), a request (405), bad clock readings (402).
//! - `fuse`: bad text (1603), spans without a fusion (501 to 504).
//! - `check`: bad spans text (1603), bad certificate text (606), spans that can't be fused (501 to 503), a certificate
//!   that does not prove its claim (601 to 605).
//! - `run`: not UTF-8 (1603), not a valid script (1301 to 1305).
//! - `trace` and `picture`: as `run`.
//! - `twin`: as `run`, then no reading (1401), a reading that is cut at the chosen end (1402).
//! - `live`: as `run`, then no part for a run in threads (1302), a part that does not fit its machine (1303), and what
//!   the run refuses.
//! - `judge`: a bad line (1603).
//!
//! [`main_with`] is the whole program over any devices. Its contract says what is written for all arguments and all
//! inputs. It uses no threads, and rejects `live` like invalid arguments. [`live_with`] is the same with threads, also
//! for `live`. Both reject the services of the program like invalid arguments.
//!
//! ```text
//! let mut input = Counted::new(rt.stdin());      // the input is "faulty 1\nspan 0 10\nspan 5 15\nspan 12 20\n"
//! let mut output = Counted::new(rt.stdout());
//! let status = main_with(rt.alloc(), &["fuse"], &mut input, &mut output);
//! // status is Status::Fine, and the first line of the output is "claim 5 15\n"
//! ```
//!
//! `specs/Run.antt` says what a run does to its devices. `specs/Command.antt` and the file of each command say what the
//! commands reply, and `specs/Scripted.antt` what the commands that read a script reply. `specs/SpansText.antt` says
//! what spans text is. `specs/Answer.antt` has the lines and statuses of the replies.
//!
//! - `program`: the program over any devices.
//! - `input` reads, `output` writes; `ending` has what they answer and `faults` the refusals.
//! - For standard error: `causes`, why `live` gave no reading; `places`, where an input is refused;
//!   `certificate_places`, where a certificate is refused.
//! - `age`, `fuse`, `check`, `running`, `tracing`, `twinning`, `picturing`, `living` and `judging`: the commands.
//!   `spans_text`: the text that `fuse` and `check` read. `scripts`: the text of a script.
#![tactic(auto)]

mod age;
mod causes;
mod certificate_places;
mod check;
mod ending;
mod faults;
mod fuse;
mod input;
mod judging;
mod living;
mod output;
mod picturing;
mod places;
mod program;
mod running;
mod scripts;
mod spans_text;
mod tracing;
mod twinning;

pub use ending::{CommandOutput, Ended};
pub use faults::Fault;
pub use input::{MOST_HISTORY, MOST_INPUT};
pub use living::live_word_laws;
pub use output::give;
pub use program::{answer_asked, answer_with, asked_by, live_with, main_with};
pub use ttd_words::Status;

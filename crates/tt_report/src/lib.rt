//! The log, the status file and the evidence of a running machine or master, written by threads of their own, and pages of
//! them over HTTP.
//!
//! A machine's threads never wait for standard error or for a file system. They hand what is to be written to a
//! [`Reporter`] and go on:
//!
//! ```text
//! // three threads, which are never joined
//! let addresses = Addresses::new(texts); // those of the sources, which lines name beside their numbers, and the status of a machine has
//! let reporter = Reporter::start(rt, alloc, LogFormat::Text, Some("/run/truetime/status"), Some("/run/truetime/evidence"), addresses)?;
//! reporter.give_pages(rt, alloc, Pages { listener, limits })?; // one more
//! reporter.watch_for(1_000_000_000);
//! reporter.log(rt, event);             // a line of the log
//! reporter.show(rt, status);           // the newest status; show_master that of a master, which may have pages by give_master_pages
//! reporter.prove(rt, text);            // the newest evidence
//! reporter.keep_break(rt, text, text); // the evidence before a break, and that of it
//! reporter.busy(clock);                // a round begins to publish at this clock reading ..
//! reporter.idle();                     // .. and has published
//! reporter.end(rt);                    // waits until all of it is written, for at most 200 ms
//! ```
//!
//! Standard error, the status file and the evidence have a thread each, so that a pipe that is full keeps no status
//! away, and a file system that hangs keeps no line away. Lines wait in a queue of [`CAPACITY`] places, and one place
//! each holds the newest status, the newest evidence and that of the newest break. What finds no place is left out and
//! counted: [`Reporter::left_out`] has the count of all, and the next line of a kind says how many lines of its kind were
//! left out before it. A line of a kind follows the one before it after ten seconds at the earliest, and each time that one
//! does so after twice as long, up to ten minutes. The newest line that was left out is written once that pause is over.
//!
//! Who has a thread of its own for another file hands over to it by a [`Lane`], too.
//!
//! The pages have a thread of their own as well ([`Pages`]). It serves up to 8 connections by turns, from other hosts only where its address is not of loopback, each
//! for two seconds in all, and waits for none. If one more comes, the one that was accepted before all others is closed. A
//! client that takes its time costs the others nothing.
//!
//! Lines of one thread are written in the order in which that thread logged them. Lines of several threads come in the
//! order in which they found their places.
//!
//! - `reporters`: [`Reporter`]. `records`: what its threads share with those that log. `writers`: its threads. `tries`: what they log.
//! - `limits`: which lines are logged, and how many were left out. `watches`: when a publication is slow.
//! - `journals`: [`Journal`], whether a journal reads standard error. `sources`: [`Addresses`], which lines and the status of a machine name.
//! - `pages`: the thread of the pages, which `tt_pages` says. `master_pages`: what it shows of a master. `visitors`: its connections. `lanes`: the queues. `files`: the files that are replaced, and [`Disk`]. `clocks`: readings of the system's clocks. `faults`: why there is no reporter.
//!
//! The functions over values are proved: the kinds of lines and their limits, the counts of lines that were left out,
//! when a publication is slow, and how long a connection of the pages is served. Nothing is claimed of the threads, of what a queue holds, and of what the system
//! writes.
#![tactic(auto)]

mod clocks;
mod faults;
mod files;
mod journals;
mod lanes;
mod limits;
mod master_pages;
mod pages;
mod records;
mod reporters;
mod sources;
mod tries;
mod visitors;
mod watches;
mod writers;

pub use faults::ReporterFault;
pub use files::Disk;
pub use journals::Journal;
pub use lanes::Lane;
pub use master_pages::MasterPages;
pub use pages::Pages;
pub use records::CAPACITY;
pub use reporters::Reporter;
pub use sources::Addresses;

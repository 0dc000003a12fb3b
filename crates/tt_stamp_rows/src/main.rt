//! Says what a stamper and a table of pending commits have to answer: the tests of the clients take the answers that they
//! want from here. Each is proved to be what the definitions in `specs/` say.
//!
//! It reads lines from standard input, and writes the answer to each. All numbers are nanoseconds. Any other line ends it
//! with status 1.
//!
//!     row LAST LO HI FLOOR LEASE_LO LEASE_HI
//!     row LAST LO HI FLOOR LEASE_LO LEASE_HI AHEAD GRID
//!
//! is what a stamper with this lease, whose last stamp is LAST, or none where that is 0, answers to this floor by the
//! reading [LO, HI]: `stamp N`, or `refused N`. A floor may lie AHEAD above HI, and stamps are multiples of GRID: ten
//! seconds and 1 where they are not named.
//!
//!     table                      begins a table of no commits, whose stamper has the whole of time: `open`
//!     begin LO HI FLOOR          begins a commit by a reading: `begun STAMP`, or `refused N`
//!     written STAMP              ends a commit: `ended`, or `invalid` where none with this stamp is pending
//!     given_up STAMP             the same
//!     watermark EARLIEST         the greatest time below EARLIEST up to which all commits are ended, or `none`
//!     readable T EARLIEST        whether T is such a time: `yes` or `no`
//!     release STAMP EARLIEST     whether STAMP is below EARLIEST: `yes` or `no`; `invalid` where the commit is pending
//!
//! is a table of pending commits, call by call. EARLIEST is that of the reading by which it is asked. The first table is
//! there at the beginning; it takes up to [`tables::MOST`] commits.
//!
//! - `lines`: what a line asks a stamper. `answers`: what is answered. `calls` and `tables`: the table.
#![tactic(auto)]

mod answers;
mod calls;
mod lines;
mod tables;

use answers::{Answer, answer_of, answer_within};
use anyhow::{Result, bail};
use calls::Call;
use lines::{Asked, Limited};
use std::io::{BufRead, BufReader};
use tables::Table;

fn main(rt: HostRuntime) -> Result<()> {
    let mut input = BufReader::new(rt.alloc(), rt.reader())?;
    let mut line = String::new(rt.alloc());
    let mut table = Table::new();
    for number in 1..u64::MAX {
        line.clear();
        if input.read_line(&mut line)? == 0 {
            break;
        }
        let Some(answer) = answer_to(line.as_bytes(), &mut table) else {
            bail!(
                "line {number} is no row of a last stamp, a reading, a floor and a lease, and no call of a table"
            );
        };
        println!(rt; "{answer}")?;
    }
    Ok(())
}

/// The answer to a line, if there is one.
fn answer_to(line: &[u8], table: &mut Table) -> Option<Answer> {
    if let Some(asked) = Asked::by_line(line) {
        return Some(answer_of(&asked));
    }
    if let Some(limited) = Limited::by_line(line) {
        return Some(answer_within(&limited));
    }
    table.answer(&Call::by_line(line)?)
}

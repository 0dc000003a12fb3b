//! Sessions: a client's lines and the service's replies.
//!
//! A client asks what time it is, whether a time has surely passed or has surely not arrived, and for commits. A commit
//! is answered `committed` once its stamp has surely passed (commit wait of Spanner, OSDI 2012, section 4.2.1).
//!
//! [`serve`] serves one session: it reads lines from any reader, calls any [`Service`], and writes each reply before it
//! reads on. It promises that what was written is exactly the replies to the lines that were read, by one conversation
//! with the service: a list of calls and answers, each of which the service allows in the state that the one before
//! left. A [`Desk`] is the service of one thread.
//!
//! A [`Talk`] is a session as a value, and [`Talk::step`] is one step of it: it answers the lines that end in further
//! bytes, and neither reads nor writes. So one thread can go on with many sessions, each when bytes of it came.
//!
//! ```text
//! now            ->  now 1795654766534185885 1795654766543911764
//! commit 1 0     ->  waiting 1 1795654766557298236      the commit is pending: send the line again
//! commit 1 0     ->  committed 1 1795654766557298236
//! after 5        ->  yes
//! ```
//!
//! - `requests`: what a line asks for, and its one spelling. `replies`: the replies to lines.
//! - `services`: the trait `Service`. `calls`: the calls of a conversation.
//! - `answers`: which calls of the service a request takes, and the reply to it. `begun`: what is kept of the last
//!   commit.
//! - `talks`: `Talk`, a session between its bytes, and the reply to each line that ends. `steps`: one step of a session,
//!   for a caller that serves many. `serving`: `serve`, with its faults in `faults`.
//! - `commits`: the steps of a commit, over any source of stamps and any book, and the pause between its release steps.
//!   `desks`: `Desk`.
//! - `timed`: devices whose calls may end before anything came. `deadlines`: a reader and a writer over such devices,
//!   which end a session at a time of its clock.
#![tactic(auto)]

mod answers;
mod begun;
mod calls;
mod commits;
mod deadlines;
mod desks;
mod faults;
mod replies;
mod requests;
mod services;
mod serving;
mod steps;
mod talks;
mod timed;

pub use begun::Begun;
pub use calls::Call;
pub use commits::{
    CommitBook, MAX_PAUSE, PAUSE_MARGIN, StampSeat, StampSource, begin_commit, pause_for,
};
pub use deadlines::{Deadline, DeadlineReader, DeadlineWriter};
pub use desks::Desk;
pub use faults::{CommitFault, LineFault, ServeFault};
pub use replies::LineReply;
pub use requests::{Request, request_laws};
pub use services::Service;
pub use serving::{Served, Turns, line_laws, serve};
pub use steps::{Replies, STEP_ROOM, Step, Stop, step_laws};
pub use talks::Talk;
pub use timed::{Timed, TimedReader, TimedWriter};

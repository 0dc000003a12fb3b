//! The connections of a machine's clients, and the service of the session on each.
//!
//! A machine has one or two [`Backlog`]s, each a [`Listener`] and the [`Inbox`] of each worker that serves those who
//! connect there: one for the TCP address, and one for the Unix socket if there is one. [`Listeners`] holds them. One thread
//! accepts connections for both, by an [`Acceptor`], and hands each to a worker with the fewest sessions; the workers take
//! them in the order in which they came, by [`Listeners::next`]. The acceptor waits for its sockets and for a waker, a worker
//! for its connections and for a waker, by a [`Watcher`]. So a machine ends without a descriptor and without a path.
//!
//! A worker serves its sessions by turns. What it has for all of them is a [`Post`]: a watch with its clock, a seat of the
//! sequencer that all workers share, the lease, the interval of the stampers, how far a floor may lie ahead, and how wide a
//! reading may be. What is kept of each session between its turns is a [`Visit`], and the post is lent to one of them for a
//! turn, by [`Post::turn`]. Replies to lines that came together are handed over together. The service of a session during a
//! turn is a [`Station`], with a book of its own. So no session sees anything of another one, and its memory is freed when
//! it ends.
//!
//! ```text
//! let post = Post::new(&rt, rt.alloc(), watch, clock, seat, &sequencer, Terms { lease, stampers, ahead, max_width });
//! let (mut one, mut other) = (Visit::new(rt.alloc()), Visit::new(rt.alloc()));
//! let (post, done) = post.turn(&client, &mut one, b"commit 1 0\n", &mut writer, &mut replies, 1);
//! // the same post serves another session, while the commit of the first one is pending
//! let (post, done) = post.turn(&other_client, &mut other, b"now\n", &mut other_writer, &mut replies, 1);
//! ```
//!
//! - `listeners`: [`Listener`], and what may stand at the path of a Unix socket. `inboxes`: [`Inbox`] and [`Watcher`].
//! - `acceptors`: [`Listeners`] and [`Acceptor`]: when connections are handed over, how long the acceptor waits, and when
//!   workers share their time.
//! - `lines`: [`Counts`]. `presence`: [`Presence`], whether a client is still there and whether the machine is broken, and
//!   `sights`: both for the client of a socket.
//! - `posts`: [`Post`]. `stations`: [`Station`], the service of one session, and `pages`: its book. `together`: replies that
//!   are handed over together. `visits`: [`Visit`], and [`Post::turn`]. `faults`: why a station refuses a call.
//! - `requests`: [`FirstLine`], whether the first line of a session is that of an HTTP request.
//!
//! The functions over values are proved: what is done at the path of a Unix socket, when connections are handed over, how
//! long the acceptor waits, when workers share their time, when a client has left, and which lines are those of HTTP. So is
//! all of a turn. Nothing is claimed of sockets, threads and their order.
#![tactic(auto)]

mod acceptors;
mod faults;
mod inboxes;
mod lines;
mod listeners;
mod pages;
mod posts;
mod presence;
mod requests;
mod sights;
mod stations;
mod together;
mod visits;

pub use acceptors::{Acceptor, Backlog, Listeners};
pub use faults::StationFault;
pub use inboxes::{Inbox, MAX_EVENTS, MAX_WAITING, Ready, Room, Watcher};
pub use lines::{Counts, WAIT_BOUNDS, is_over, place_of};
pub use listeners::{Listener, ListenerFault, SLICE};
pub use posts::{Post, Terms};
pub use presence::{AlwaysThere, Presence, Question};
pub use requests::{FirstLine, is_request_line};
pub use sights::{Attendance, Client, Sight};
pub use stations::Station;
pub use visits::{Visit, visit_laws};

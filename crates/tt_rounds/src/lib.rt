//! The rounds of a daemon, and the turns of a master, over links that send and receive packets.
//!
//! A daemon polls its sources through a [`Link`], fuses their answers, and publishes the fusions: see
//! [`daemon_rounds`]. A master answers polls: see [`master_rounds`]. Both are what a machine of the service runs, and
//! take no thread: a caller that has threads gives each of them one.
//!
//! ```text
//! // a daemon polls its sources over UDP: one round of 8 turns
//! let (mut link, waker) = RoundLink::new(&rt, alloc, socket, sources, Duration::from_millis(20))?;
//! let did = daemon_rounds(&rt, &mut daemon, &mut link, &mut clock, &mut teller, 1, 8);
//! // a master, in another process, answers one of these polls honestly
//! let mut to_machines = UdpLink::new(socket, machines);
//! let played = master_rounds(&mut to_machines, &mut master, &[Act::Honest], 1)?;
//! // the same across hosts, sealed under keys that each pair of them shares
//! let (mut link, waker) = RoundLink::over(&rt, alloc, socket, sources, wait, Wire::new(rings, ahead))?;
//! let mut to_machines = SealedAnswers::new(alloc, to_machines, keys)?;
//! ```
//!
//! - `links`: the trait `Link`, which sends and receives packets. `datagrams`: a link over UDP for a master.
//!   `sealed_answers`: a master's link over another one, which answers sealed requests.
//! - `round_links`: a link over UDP for a daemon, which waits no longer than a round. `awaiting`: the polls that it waits
//!   for, and what becomes of each packet. `openings`: what did not open. `hosts`: its socket, and the addresses of its
//!   peers. `sockets`: the trait `PacketSocket`. `addresses`: those of IPv4 and of IPv6. `laws`: what sealed links keep.
//! - `schedules`: the trait `Schedule`, which says how long a daemon goes on, and a schedule that counts the rounds.
//! - `rounds`: `daemon_while`, `daemon_rounds` and `report_rounds`, and what one such call did. `tallies`: what it
//!   counted. `reports`: what its last round did.
//! - `masters`: `master_rounds`.
//! - `faults`: why a call refuses.
#![tactic(auto)]

mod addresses;
mod awaiting;
mod datagrams;
mod faults;
mod hosts;
mod laws;
mod links;
mod masters;
mod openings;
mod reports;
mod round_links;
mod rounds;
mod schedules;
mod sealed_answers;
mod sockets;
mod tallies;

pub use addresses::plain_of;
pub use awaiting::{TURNS_PER_PEER, turn_laws};
pub use datagrams::{MAX_STRANGERS, UdpLink};
pub use faults::{LinkFault, NodeFault};
pub use laws::{delay_laws, hearing_laws, sealed_laws, socket_laws};
pub use links::{Link, PACKET_LEN};
pub use masters::master_rounds;
pub use reports::{RoundReport, SourceOutcome, SourceReport};
pub use round_links::{MAX_DROPPED, RoundLink};
pub use rounds::{
    Rounds, RoundsPlan, course_laws, daemon_rounds, daemon_while, report_laws, report_rounds,
};
pub use schedules::{CountedSchedule, Schedule};
pub use sealed_answers::SealedAnswers;
pub use sockets::PacketSocket;
pub use tallies::{RefusedFusions, RefusedPackets, Tally};

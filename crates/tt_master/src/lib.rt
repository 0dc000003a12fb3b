//! Time masters, which answer the polls of machines.
//!
//! A master reads the time from a reference, such as a GPS receiver or an atomic clock (Spanner's time masters, OSDI
//! 2012, section 3). Its uncertainty says how far the reference may be off. An honest master answers the time of its
//! reference, plus and minus the uncertainty; the other acts are for tests.
//!
//! ```text
//! let mut master = Master::new(0, 1_000, reference);   // source 0, off by at most 1,000 ns
//! let packet = master.answer2(&bytes)?;                // at reference time 5,000 the span [4,000, 6,000]
//! ```
//!
//! - `acts`: [`Act`], what a master does with one request: it is honest, or faulty in one of these ways.
//! - `references`: [`Reference`], the device from which a master reads the time. `memory`: [`MemoryReference`], one
//!   that gives the times of a list.
//! - `masters`: [`Master`], with its calls [`answer`](Master::answer) and [`play`](Master::play) for requests of TTP1,
//!   [`answer2`](Master::answer2) and [`play2`](Master::play2) for requests of TTP2.
//! - `hearing`: what a master reads in the bytes that came, and the packet that it answers. `spans`: the span in this
//!   packet, and its laws.
//! - `faults`: why a packet is not answered, and why a reference gave no time.
//!
//! Other references state an interval in which the time lies, as one does that asks other servers:
//!
//! - `span_references`: [`SpanReference`], what such a master reads its intervals from. `span_memory`:
//!   [`MemorySpanReference`], one that gives those of a list.
//! - `span_masters`: [`SpanMaster`], with its calls [`answer`](SpanMaster::answer) and
//!   [`answer2`](SpanMaster::answer2). [`stated_span`] is the interval of a reading and its uncertainty.
//! - `silences`: why a reference states no interval, and why a request is then not answered.
//! - `watches`: [`RealTimeWatch`], which notices that the real-time clock was stepped, or that it can't be as near to true time as
//!   was stated.
#![tactic(auto)]

mod acts;
mod faults;
mod hearing;
mod masters;
mod memory;
mod references;
mod silences;
mod span_masters;
mod span_memory;
mod span_references;
mod spans;
mod watches;

pub use acts::Act;
pub use faults::{MasterFault, RefFault};
pub use masters::Master;
pub use memory::MemoryReference;
pub use references::Reference;
pub use silences::{NoAnswer, Silence};
pub use span_masters::SpanMaster;
pub use span_memory::MemorySpanReference;
pub use span_references::SpanReference;
pub use spans::{act_laws, stated_span};
pub use watches::{RealTimeWatch, watch_laws};

//! Publications of a machine's fusions, and readings of the time.
//!
//! A [`Reading`] is an interval that holds the true time, as Spanner's `TT.now()` gives it (OSDI 2012, section 3). A
//! daemon publishes its fusions through a [`Teller`]. Many threads read the last publication, each through a [`Watch`]
//! of its own, and age it by their clock. There is no lock: a teller shows a fusion in one atomic step, and a watch
//! takes what is shown in one atomic step. Before that the watch looks at the number of the last publication, and if it
//! has seen that one, it takes nothing.
//!
//! ```text
//! let fused = Fused::make(2_000, &[Span::new(1_003, 1_020)?], 0)?;
//! let (mut teller, mut watches) = open(&rt, rt.alloc(), drift, 1)?;   // a drift of 200 parts per million
//! let published = teller.publish(&rt, fused);
//! let reading = watches[0].now(&mut clock);                           // the clock shows 7_000
//! teller.close(&rt);                                                  // before any `?`
//! // the clock has gone on by 5_000: reading?.earliest() is 6_002, and reading?.latest() is 6_021
//! ```
//!
//! The publications are a list, which only grows. What a watch has seen of the list never shrinks. A watch can also be
//! told what a teller has published (a [`Told`]). One of the two lists, what it has seen and what it is told, is a
//! prefix of the other. The watch keeps the longer one. So a thread that was told what a teller published reads no
//! older publication from then on.
//!
//! - `faults`: why a call is refused.
//! - `clocks`: the trait `Clock`. `memory`: a clock in memory.
//! - `readings`: `Reading`, and how a fusion is read at a clock reading (`FusedSpan`, `ReadAt`).
//! - `publications`: what is known of the publications, in the history of the crate `tt_history`. `shows`: how the
//!   publications are shown to many watches.
//! - `teller`: `open`, `Teller` and `Told`. `watch`: `Watch`.
//!
//! The calls that only read, `tell`, `learn`, `seen`, `is_within` and `now`, never wait and never allocate.
#![tactic(auto)]

mod clocks;
mod faults;
mod memory;
mod publications;
mod readings;
mod shows;
mod teller;
mod watch;

pub use clocks::Clock;
pub use faults::{ClockFault, PublishFault, ReadFault};
pub use memory::MemoryClock;
pub use readings::{FusedSpan, ReadAt, Reading};
pub use teller::{MAX_WATCHES, Teller, Told, open};
pub use watch::Watch;

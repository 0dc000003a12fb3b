//! The twin of a reading: another run in which the machine sees the same, and in which the true time is the chosen end
//! of the reading.
//!
//! [`twin`] makes such a run for each reading and each end of it, unless that end is cut at the greatest time. No event
//! of the twin is refused, it keeps the assumptions, and its machine sees the same spans, the same clock readings and
//! the same readings. So no interval that is narrower at that end would be right: the readings are as short as they can
//! be.
//!
//! ```text
//! // event 11 of the run gives the reading [5004, 5016]
//! let low = twin(alloc, &configs, &events, 11, Side::Low)?;     // a run at whose end the true time is 5004
//! let high = twin(alloc, &configs, &events, 11, Side::High)?;   // one at whose end it is 5016
//! ```
//!
//! - `twins`: [`twin`], which makes that run.
//! - `observations`: what a machine has seen of one publication, as a run goes on.
//! - `twin_faults`: why there is no twin.
#![tactic(auto)]

mod observations;
mod twin_faults;
mod twins;

pub use twin_faults::TwinFault;
pub use twins::{Side, twin, twin_laws};

//! The service `master`: answers polls until the process is ended.
//!
//! - `masters`: [`serve_polls`], the service. `sealed_masters`: a master that answers sealed polls. `key_files`: its file of
//!   keys. `pauses`: when it looks at it. `links`: the link to the senders of polls.
//! - `players`: how it answers. `references`: from what it knows the time. `following`: its NTP servers, and the threads that
//!   ask them. `upstreams`: one of them.
//! - `standing`, `telling`: what it shows of itself. `clocks`: this computer's clocks. `hosts`: what asking servers wants of it. `files`: the bytes of files.
//! - `faults`: why it does not serve.
#![tactic(auto)]

mod clocks;
mod faults;
mod files;
mod following;
mod hosts;
mod key_files;
mod links;
mod masters;
mod pauses;
mod players;
mod references;
mod sealed_masters;
mod standing;
mod telling;
mod upstreams;

pub use clocks::RealTime;
pub use faults::StartFault;
pub use files::bytes_of;
pub use hosts::AsksServers;
pub use key_files::say_refusal;
pub use masters::{MasterPlan, serve_polls};

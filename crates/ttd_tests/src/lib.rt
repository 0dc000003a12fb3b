//! Tests of the program's commands (`ttd_commands`) by worked examples over devices in memory, and of the twins of the worked
//! runs. What the commands answer beyond these is in `tests`.
//!
//! They stand in a crate of their own, since a crate with tests is proved twice.
//!
//! Modules:
//!
//! - `commands`: the worked examples.
//! - `live`: the command `live`, with a run on this computer.
//! - `twins`: the twins of the readings of the worked runs.
#![tactic(auto)]

#[cfg(test)]
mod commands;
#[cfg(test)]
mod live;
#[cfg(test)]
mod twins;

//! Tests of the libraries below the program's commands, by public calls alone.
//!
//! They stand in a crate of their own, since a crate with tests is proved twice, and in one, since each has to read what it stands
//! on. They compare by `assert!(rt; a == b)`, which costs the prover less than `assert_eq!` does.
//!
//! What a fusion is made of:
//!
//! - `streams`: devices of the standard library (`tt_stream`).
//! - `spans`: spans and drifts (`tt_span`).
//! - `polls`: messages (`tt_poll`).
//! - `masters`: what a master answers (`tt_master`).
//! - `sources`: what sources stated (`tt_source`).
//! - `fusions`, `scaled_fusions`: fusions of spans, with their certificates, and of scaled ends (`tt_fuse`, `tt_cert`).
//! - `daemons`, `hostile_packets`: a machine's daemon, and what it makes of hostile packets (`tt_daemon`).
//! - `seals`: HMAC-SHA256, and how keys are shown (`tt_seal`, `tt_ntp`).
//!
//! What a commit takes:
//!
//! - `publications`: tellers and watches, also in threads (`tt_publish`).
//! - `stamps`, `races`: books and rows, seats in threads and by a reading of their own (`tt_stamp`).
//! - `sessions`, `desks`: sessions over devices that fail, and what a desk answers (`tt_session`).
//! - `turns`: two sessions by turns, and `together`: the replies of one turn, over a writer that fails (`tt_connections`).
//!
//! The running node:
//!
//! - `rounds`, `failures`, `nodes`, with the devices of `devices`: rounds of a daemon and of a master, what they do where a device
//!   fails, a node and its workers (`tt_node`).
#![tactic(auto)]

#[cfg(test)]
mod daemons;
#[cfg(test)]
mod desks;
#[cfg(test)]
mod devices;
#[cfg(test)]
mod failures;
#[cfg(test)]
mod fusions;
#[cfg(test)]
mod hostile_packets;
#[cfg(test)]
mod masters;
#[cfg(test)]
mod nodes;
#[cfg(test)]
mod polls;
#[cfg(test)]
mod publications;
#[cfg(test)]
mod races;
#[cfg(test)]
mod rounds;
#[cfg(test)]
mod scaled_fusions;
#[cfg(test)]
mod seals;
#[cfg(test)]
mod sessions;
#[cfg(test)]
mod sources;
#[cfg(test)]
mod spans;
#[cfg(test)]
mod stamps;
#[cfg(test)]
mod streams;
#[cfg(test)]
mod together;
#[cfg(test)]
mod turns;

//! Files of keys for sealed messages.
//!
//! A file has a line `ID HEX64` or `ID HEX64 NAME` for each key: its number, 0 to 2^32 - 1 in decimal digits without
//! leading zeros, its 32 bytes as 64 hexadecimal digits in lower case, and a name for the reader alone. Empty lines, and
//! lines that begin with `#`, are skipped.
//!
//! ```text
//! # keys of host a
//! 7 000102030405060708090a0b0c0d0e0f101112131415161718191a1b1c1d1e1f master-0
//! ```
//!
//! - `lines`: the line of a key.
//! - `texts`: the keys of a text.
//! - `access`: who may use a file of keys.
//! - `files`: the text or the keys of a file, or of what a device gives.
//! - `faults`: why a file gives no keys.
#![tactic(auto)]

mod access;
mod faults;
mod files;
mod lines;
mod texts;

pub use access::access_of;
pub use faults::KeysFault;
pub use files::{keys_at, keys_from, text_at, text_from};
pub use lines::{MAX_LINE, is_name, key_of_line, line_of};
pub use texts::{keys_laws, keys_of_text};

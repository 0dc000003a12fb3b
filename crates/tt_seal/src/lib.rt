//! Sealed messages: an envelope has a message, the number of a key, and a tag under this key.
//!
//! | bytes | content |
//! |---|---|
//! | 0..n | the message, n at most 40 |
//! | n..n+4 | the number of the key, big endian |
//! | n+4..n+20 | the tag: the first 16 bytes of HMAC-SHA256 (RFC 2104, FIPS 198-1) over the bytes before it |
//!
//! ```text
//! let key = Key::new(7, bytes);
//! let envelope = seal(message, &key);
//! let opened = open(&envelope, &keys)?;      // opened.message, opened.number
//! ```
//!
//! - `hmac`: HMAC-SHA256. `keys`: a key with its number.
//! - `sealing`: `seal`, `open`, and what is known of both.
//! - `faults`: why bytes do not open.
//!
//! Nothing here takes memory. Nothing is claimed of who can make a tag, of how long a comparison takes, or that a key
//! leaves memory when it is dropped.
#![tactic(auto)]

mod faults;
mod hmac;
mod keys;
mod sealing;
mod secrets;

pub use faults::SealFault;
pub use hmac::hmac_sha256;
pub use keys::{KEY_LEN, Key};
pub use sealing::{EXTRA_LEN, MAX_ENVELOPE, MAX_MESSAGE, Opened, key_with, open, seal, seal_laws};
pub use secrets::is_same_secret;

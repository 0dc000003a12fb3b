//! Byte readers and byte writers that count their failures.
//!
//! A fault of a [`ByteReader`] or a [`ByteWriter`] is answered only if the device's own count of failures rose. So a
//! program that reads its input whole and writes one answer blames a device only if the device failed. The traits
//! `Read` and `Write` of the standard library cannot say this, nor what was written before an error. The two traits of
//! this crate can say both. [`Counted`] makes a device of any reader or writer of the standard library.
//!
//! ```text
//! let mut reader = MemoryReader::new(b"twelve bytes".as_slice(), 5, None);
//! let whole = read_to_end(rt.alloc(), &mut reader, 12, 4)?;
//! // the reads give 5, 5 and 2 bytes, and the fourth says that the input has ended
//! let mut writer = MemoryWriter::new(rt.alloc(), 5, Some(3));
//! let written = write_all(&mut writer, whole.as_slice());
//! // the third write fails: written is Err(DeviceFault), writer.taken() is b"twelve byt", writer.failures() is 1
//! ```
//!
//! - `device`: the traits `ByteReader` and `ByteWriter`.
//! - `fault`: the fault of a device, and why an input could not be read whole.
//! - `whole`: `read_to_end` and `write_all`, over any device.
//! - `counted`: `Counted`, a reader or a writer of the standard library with its counts.
//! - `count`: a count that stays at its greatest value once it is reached.
//! - `memory`: a reader and a writer in memory. They give or take bytes piece by piece, and fail at a chosen call.
#![tactic(auto)]

mod count;
mod counted;
mod device;
mod fault;
mod memory;
mod whole;

pub use counted::Counted;
pub use device::{ByteReader, ByteWriter};
pub use fault::{DeviceFault, ReadFault};
pub use memory::{MemoryReader, MemoryWriter};
pub use whole::{read_to_end, write_all};

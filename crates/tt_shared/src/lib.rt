//! The last publication of a machine in a file of 320 bytes. Any process of the host can map and read it, without a
//! lock, a system call or a wait.
//!
//! A daemon writes by a [`SharedTeller`], which [`open_file`] gives, and calls [`SharedTeller::publish`]. Readers in
//! Rattle use a [`SharedReader`], which [`open_view`] gives, and call [`SharedReader::now`]. The folder `clients/` has
//! readers in other languages.
//!
//! All numbers are little endian and have 8 bytes, if nothing else is said.
//!
//! | bytes | content | changes |
//! |---|---|---|
//! | 0..4 | `TTS3` | never |
//! | 4..8 | the length of the file, 320, in 4 bytes | never |
//! | 8..16 | the clock, by its number in Linux: 1 is `CLOCK_MONOTONIC`, 4 is `CLOCK_MONOTONIC_RAW` | never |
//! | 16..24 | the index: eight counters of one byte | one byte a publication |
//! | 24..60 | the boot: the text of `/proc/sys/kernel/random/boot_id` | never |
//! | 60..64 | 0 | never |
//! | 64..192 | slot 0, of the publications whose count is even | while it is not current |
//! | 192..320 | slot 1, of those whose count is odd | while it is not current |
//!
//! | in a slot | content | range |
//! |---|---|---|
//! | 0..8 | the index at which the slot is current | not 0 |
//! | 8..16 | the clock of the fusion, in nanoseconds | at most `MAX_TIME` |
//! | 16..24, 24..32 | the earliest and the latest of its span | earliest at most latest, latest at most `MAX_TIME` |
//! | 32..40 | the last clock reading at which it is fresh | any |
//! | 40..48 | the epoch, the life of the daemon | any |
//! | 48..56 | the number of the publication in that life | any |
//! | 56..64 | the drift in parts per million | at most `MAX_DRIFT` |
//! | 64..72 | the last clock reading at which it may be used; 2^64 - 1: no limit; 0: nothing is published any more | any |
//! | 72..120 | the second base | below |
//! | 120..128 | 0 | 0 |
//!
//! Clock readings are nanoseconds of the clock of the file. Readers that cannot read `CLOCK_MONOTONIC_RAW`, such as the run
//! times of Java and Go, use the second base, whose readings are of `CLOCK_MONOTONIC`:
//!
//! | in a slot | content | range |
//! |---|---|---|
//! | 72..80 | a clock reading | at most `MAX_TIME` |
//! | 80..88, 88..96 | the earliest and the latest of the span at that reading | earliest at most latest, latest at most `MAX_TIME` |
//! | 96..104 | the drift of `CLOCK_MONOTONIC` since then, in parts per million | at most `MAX_DRIFT` |
//! | 104..112 | the last clock reading at which it is fresh | any |
//! | 112..120 | the last clock reading at which it may be used; 2^64 - 1: no limit; 0: there is no second base | any |
//!
//! A reader refuses a slot with a number out of range, whichever base it uses. A file by `CLOCK_MONOTONIC` has no second
//! base, and one by the raw clock lacks it while the slewed clock goes faster or slower than its drift allows.
//!
//! This is version 3. Version 2 begins with `TTS2` and has no second base; version 1 begins with `TTS1` and has 192 bytes.
//! A reader of one version refuses a file of another as one that is no shared file. A writer of version 3 replaces such a
//! file, and one by another clock than its own.
//!
//! The count of publications goes on through all lives of the daemon. Counter i of the index is byte i of the count
//! minus byte i + 1, modulo 256. So a publication adds one to exactly one counter, and no two counts below 2^64 have
//! the same index.
//!
//! A publication is two writes: the slot that is not current, and then the one byte of the index. A reader loads the
//! index, the slot that it names, and the index again. If both loads gave the same index, no byte of the slot changed
//! between them ([`copy_laws`]). If the writer dies at any moment, the file shows the publication before or the new one
//! ([`crash_laws`]).
//!
//! - `heads`: the head as bytes, and back.
//! - `bases`: the two bases of a publication, and their readings.
//! - `layout`: where the head and the slots stand.
//! - `slots`: a publication as the bytes of a slot, and back; a reading of it.
//! - `indexes`: the index of each count, and the count of each index.
//! - `places`: where a writer puts the bytes, and where readers find them.
//! - `readers`: the reader, which copies a slot between two looks at the index.
//! - `memory`: a file in memory, for tests, which fails at the write that it is told to.
//! - `files`: files of the operating system: how a writer opens or makes one, and how a reader opens it.
//! - `holding`: what a writer does with what it finds at its paths.
//! - `host`: whether the clock of a process is that of the host.
//! - `teller`: the writer, and the two writes of a publication in their order.
//! - `laws`: why readers need no lock.
//! - `faults`: why calls are refused.
#![tactic(auto)]

mod bases;
mod faults;
mod files;
mod heads;
mod holding;
mod host;
mod indexes;
mod laws;
mod layout;
mod memory;
mod places;
mod readers;
mod slots;
mod teller;

pub use bases::SlewedBase;
pub use faults::{PlaceFault, SharedFault, WriteFault};
pub use files::{FilePlace, FileView, open_file, open_view};
pub use heads::{BOOT_LEN, Head, decode_head, encode_head};
pub use holding::{Adoption, Held, Seen, adoption_of, may_be_adopted, still_there};
pub use host::is_host_clock;
pub use indexes::{count_of, index_laws, index_of, turn_of};
pub use laws::{copy_laws, crash_laws};
pub use layout::{FILE_LEN, HEAD_LEN, SLOT_LEN, USED_LEN};
pub use memory::{MemoryPlace, memory_laws};
pub use places::{Place, ReadPlace};
pub use readers::{SharedReader, SharedReading};
pub use slots::{SharedSpan, decode, encode, one_spelling, read, read_slewed};
pub use teller::SharedTeller;

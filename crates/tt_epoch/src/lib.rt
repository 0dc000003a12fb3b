//! Epochs: the numbers of a machine's lives. Each is greater than all before it, whatever crash came between.
//!
//! After a start a machine remembers one number of its earlier lives. Each start takes the next number, and answers it
//! only when the store has it for good: a draft is written and synced, takes the place of the file, and the folder of
//! both is synced.
//!
//! ```text
//! let mut store = FolderStore::open(&rt, rt.alloc(), "/var/lib/truetime")?;   // locks the folder
//! let epoch = next_epoch(&mut store)?;                                        // 1 at the first start, then 2, 3 ..
//! ```
//!
//! - `epochs`: `next_epoch`, over any store, and the law of all lives and all crashes.
//! - `stores`: `Store`, what a store has to do.
//! - `text`: the text of the file.
//! - `folder`: `FolderStore`, the store in a folder of files, which one process holds at a time; and whether a folder would
//!   be refused.
//! - `memory`: `MemoryStore`, a store in memory, for tests, which fails at the call that it is told to.
//! - `faults`: why there is no next epoch.
#![tactic(auto)]

mod epochs;
mod faults;
mod folder;
mod memory;
mod stores;
mod text;

pub use epochs::{epoch_laws, next_epoch};
pub use faults::EpochFault;
pub use folder::{FolderStore, check_epoch, check_folder};
pub use memory::MemoryStore;
pub use stores::{ReadFault, Store};
pub use text::{epoch_of, epoch_text};

//! One list of the events of a whole life, in true time: its rounds, its readings and its stamps.
//!
//! Each thread of a machine did what it did in an order of its own. The law of merges says that all of it is one list in
//! the order of true time, whose stamps are the history of the sequencer.
//!
//! Such a list is a list of events of the model of true time (`tt_world`), which replies to each reading and each stamp
//! as the life did. A life whose workers share one sequencer has such a list. So has each cut of such a life, which is what
//! its threads had done by some moment. And what is assumed of the sessions of a life, or of those of a cut of it, follows
//! from what is assumed of the turns of its workers.
//!
//! - `merging`: `merging_laws`. `listing`: `event_list_laws`. `living`: `life_list_laws`. `cutting`: `cut_list_laws`.
//! - `turning`: `turn_laws`.
#![tactic(auto)]

mod cutting;
mod listing;
mod living;
mod merging;
mod turning;

pub use cutting::cut_list_laws;
pub use listing::event_list_laws;
pub use living::life_list_laws;
pub use merging::merging_laws;
pub use turning::turn_laws;

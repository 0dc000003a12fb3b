//! How a life of a machine ended.

use tt_publish::Told;
use tt_status::BreakReason;

/// How a worker of a machine ended. Each ends once no more clients come.
#[derive(Drop)]
pub struct WorkerEnd {
    /// What its watch had seen at its end: the first ones of the publications of the machine.
    pub seen: Told,
}

/// How a life of a machine ended, from what its threads handed back.
#[derive(Drop)]
pub struct LifeEnd {
    /// The number of the life: the epoch that the store gave.
    pub epoch: u64,
    /// What its daemon published.
    pub published: Told,
    /// How its workers ended, as many as the configuration has.
    pub workers: Vec<WorkerEnd>,
    /// Why the daemon knew that an assumption is broken, if it ended because of that. If its last round had more than one
    /// sign, this is the last of them: publications that do not meet, then a sleep of the host, then a disruption of the guest.
    pub broken: Option<BreakReason>,
}

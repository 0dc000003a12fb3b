//! What is shown of a publication.

use tt_daemon::Fused;

/// A publication as it is shown: the machine that made it, the number of that life, its number among the publications
/// of the life, counted from 1, and the fusion with its spans and its certificate.
#[derive(Debug, Drop)]
pub struct Shown {
    pub machine: u8,
    pub life: u64,
    pub number: u64,
    pub fused: Fused,
}

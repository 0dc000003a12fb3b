//! Commits in the order of one of their times.

ghost use Rattle.std.specs.Prelude.{◌≡◌, IfOk};
ghost use Rattle.tt_judge.specs.Order.{time_of, IsOrderOf};

use crate::history::Commit;
use std::alloc::{AllocError, Global};

/// One of a commit's two times.
#[derive(Clone, Copy)]
pub(crate) enum Moment {
    Began,
    Ended,
}

/// This time of a commit.
fn time_of(commit: &Commit, moment: Moment) -> u64
    ensures { result ≡ time_of moment commit.now }
{
    match moment {
        Moment::Began => commit.began,
        Moment::Ended => commit.ended,
    }
}

/// This time of each commit with the number of the commit, in ascending order. Of equal times the lower number comes
/// first.
pub(crate) fn in_order(
    alloc: Global,
    commits: &[Commit],
    moment: Moment,
) -> Result<Vec<(u64, usize)>, AllocError>
    ensures { IfOk result (λ order. IsOrderOf moment commits.now order.items) }
{
    let mut order = Vec::with_capacity(alloc, commits.len())?;
    for (number, commit) in commits.iter().enumerate() {
        order.push((time_of(commit, moment), number))?;
    }
    order.sort_unstable();
    Ok(order)
}

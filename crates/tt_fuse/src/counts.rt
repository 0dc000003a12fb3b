//! How many sources can be fused when some of them may be wrong.

ghost use Rattle.std.specs.Prelude.{◌≡◌, ◌+◌, ◌*◌, ◌<◌, ◌≤◌, ◌↔◌, IsOk, IsErrOf};
ghost use Rattle.tt_span.specs.Sources.{max_sources};
ghost use Rattle.tt_fuse.specs.Fusion.{CanBeFused};

use thiserror::Error;
use tt_span::MAX_SOURCES;

/// Why sources cannot be fused, by their number and by how many of them may be wrong. These are the first three reasons
/// of a [`FuseFault`](crate::FuseFault), which also has their numbers.
#[derive(Clone, Copy, Debug, PartialEq, Eq, Error)]
pub enum CountFault {
    #[error("there is no source")]
    NoSource,
    #[error("there are more sources than can be fused")]
    TooMany,
    #[error("there are too few sources for the number that may be wrong")]
    TooFew,
}

/// Whether `sources` sources can be fused when at most `faulty` of them are wrong. Every call that refuses a number of
/// sources asks this, so the refusals are the same everywhere.
///
/// Refuses, in this order: 501 `NoSource` if there is no source, 502 `TooMany` if there are more than [`MAX_SOURCES`],
/// 503 `TooFew` if there are fewer than `2 * faulty + 1`.
pub fn check_counts(sources: usize, faulty: usize) -> Result<(), CountFault>
    ensures taken { IsOk result ↔ CanBeFused sources faulty }
    ensures no_source { IsErrOf result CountFault.NoSource ↔ (sources ≡ 0) }
    ensures too_many { IsErrOf result CountFault.TooMany ↔ (max_sources < sources) }
    ensures too_few { IsErrOf result CountFault.TooFew
        ↔ ((0 < sources) × (sources ≤ max_sources) × (sources < 2 * faulty + 1)) }
{
    if sources == 0 {
        return Err(CountFault::NoSource);
    }
    if sources > MAX_SOURCES {
        return Err(CountFault::TooMany);
    }
    // This says that there are fewer than `2 * faulty + 1`, a number that may be too large for a `usize`.
    if faulty > (sources - 1) / 2 {
        return Err(CountFault::TooFew);
    }
    Ok(())
}

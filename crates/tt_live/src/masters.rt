//! The thread of a master.

ghost use Rattle.std.specs.Prelude.{◌≡◌, ◌<◌, ◌≤◌, IfSome, IfErr};
ghost use Rattle.tt_poll.specs.Message.{max_source};
ghost use Rattle.tt_rounds.specs.Fault.{IsTurnsFault};

use crate::clocks::{LiveClock, Origin};
use std::sync::atomic::{AtomicBool, Ordering};
use std::time::Clock as SystemClock;
use tt_master::Master;
use tt_poll::MAX_SOURCE;
use tt_rounds::{NodeFault, UdpLink, master_rounds};
use tt_script::LiveMaster;

/// The source number of the master at this place. None where no source has such a number.
pub(crate) fn source_at(place: usize) -> Option<u8>
    ensures { IfSome result (λ source. (source ≡ place) × (source ≤ max_source)) }
{
    let Ok(source) = u8::try_from(place) else {
        return None;
    };
    if source > MAX_SOURCE {
        return None;
    }
    Some(source)
}

/// Answers polls until the run has ended. It does one act for each request that comes, in the order of the script, and
/// the last act for all further requests. After each packet, and after each wait for a packet, it checks whether the
/// run has ended.
///
/// Refuses with 1501 `LinkFailed` if the link failed, and with 304 `ReferenceFailed` if the clock failed.
pub(crate) fn play<R: SystemClock>(
    rt: &R,
    ended: &AtomicBool,
    origin: Origin,
    source: u8,
    plan: &LiveMaster,
    link: &mut UdpLink,
) -> Result<(), NodeFault>
    requires is_source { source ≤ max_source }
    ensures fault { IfErr result IsTurnsFault }
{
    let acts = plan.acts();
    let mut master = Master::new(source, plan.uncertainty(), LiveClock::new(rt, origin));
    let mut played: usize = 0;
    for _ in 0..u64::MAX {
        if ended.load(Ordering::SeqCst) {
            return Ok(());
        }
        let left = &acts[played.min(acts.len() - 1)..];
        if master_rounds(link, &mut master, left, 1)? > 0 {
            played = played.saturating_add(1);
        }
    }
    Ok(())
}

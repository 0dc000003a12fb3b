//! Which scripts are run live.

ghost use Rattle.std.specs.Prelude.{◌≡◌, [], ◌∷◌, None, Some, IfOk, IfErr};
ghost use Rattle.tt_live.specs.Plan.{refusal_of};

use crate::faults::LiveFault;
use tt_daemon::Config;
use tt_script::Script;

/// The machine of a script that can be run live.
///
/// Refuses, in this order: 1302 `NoLive` where the script has no part for a run in threads, 1303 `Unfit` where it does
/// not have exactly one machine, one master for each source, and one session for each worker.
pub(crate) fn machine_of(script: &Script) -> Result<Config, LiveFault>
    ensures refused { IfErr result (λ fault. refusal_of script.now.configs script.now.live ≡ Some fault) }
    ensures taken { IfOk result (λ _. refusal_of script.now.configs script.now.live ≡ None) }
    ensures machine { IfOk result (λ config. script.now.configs ≡ config ∷ []) }
{
    let Some(live) = script.live() else {
        return Err(LiveFault::NoLive);
    };
    let [config] = script.configs() else {
        return Err(LiveFault::Unfit);
    };
    if live.masters().len() != config.sources() || live.sessions().len() != config.workers() {
        return Err(LiveFault::Unfit);
    }
    Ok(*config)
}

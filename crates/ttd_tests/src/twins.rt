//! The twins of the readings of the worked runs.

use std::alloc::Global;
use std::test::Fail;
use tt_audit::audit;
use tt_daemon::Config;
use tt_scenes::WORKED_RUNS;
use tt_script::read;
use tt_twin::{Side, twin};
use tt_world::{Event, run};

/// Whether nothing is refused in this run, no reading is wrong, and the assumptions are kept.
fn is_legal(alloc: Global, configs: &[Config], events: &[Event]) -> Result<bool, Fail> {
    let trace = run(alloc, configs, events)?;
    let report = audit(alloc, configs, events, &trace)?;
    Ok((report.refused, report.wrong) == (0, 0) && report.broken.is_none())
}

/// How many twins the readings of a run have, if each of them is legal.
fn legal_twins(alloc: Global, configs: &[Config], events: &[Event]) -> Result<u32, Fail> {
    let mut twins = 0u32;
    for event in 0..events.len() {
        for side in [Side::Low, Side::High] {
            // An event that is no reading has no twin, nor has an end that is cut.
            let Ok(made) = twin(alloc, configs, events, event, side) else {
                continue;
            };
            if !is_legal(alloc, configs, &made)? {
                return Err("a twin is no legal run".into());
            }
            twins = twins.saturating_add(1);
        }
    }
    Ok(twins)
}

#[test]
fn the_twins_of_worked_runs_keep_the_assumptions(rt: HostRuntime) -> Result<(), Fail> {
    // Each reading has two twins, and the one at the greatest time, which is the last, has none.
    let wanted = [8, 2, 2, 2, 2, 4, 0, 8, 8, 0];
    for (worked, wanted) in WORKED_RUNS.iter().zip(wanted) {
        let script = read(rt.alloc(), worked.script)?;
        let twins = legal_twins(rt.alloc(), script.configs(), script.to_events())?;
        assert!(rt; twins == wanted);
    }
    Ok(())
}

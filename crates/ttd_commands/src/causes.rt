//! The reasons why a run in threads gave no reading, or why its daemon published nothing, in lines for standard error.
//! Their wording is not fixed. If it is out of memory, less is written.

use std::alloc::AllocError;
use tt_daemon::DaemonFault;
use tt_live::LiveEnd;
use tt_rounds::{RefusedFusions, RefusedPackets, Rounds};
use tt_source::SourceFault;

/// Adds to the notes what the daemon counted, if no worker gave a reading or nothing was published.
pub(crate) fn note_causes(notes: &mut String, end: &LiveEnd) {
    let _ = if end.report.readings == 0 {
        note_no_reading(notes, &end.rounds)
    } else if end.rounds.published == 0 {
        note_rounds(notes, &end.rounds)
    } else {
        Ok(())
    };
}

/// Adds that there was no reading, and what the daemon counted.
fn note_no_reading(notes: &mut String, rounds: &Rounds) -> Result<(), AllocError> {
    notes.push_str("ttd: no worker gave a reading: no line asked for one, or each was refused\n")?;
    note_rounds(notes, rounds)
}

/// Adds what the daemon counted: one line for all its rounds, and one line for each number with which something was
/// refused.
fn note_rounds(notes: &mut String, rounds: &Rounds) -> Result<(), AllocError> {
    let (done, published) = (rounds.done, rounds.published);
    let (polls, taken) = (rounds.tally.polls, rounds.tally.taken);
    write!(
        notes,
        "ttd: rounds {done}, polls sent {polls}, answers taken {taken}, fusions published {published}\n"
    )?;
    note_packets(notes, &rounds.tally.packets)?;
    note_fusions(notes, &rounds.tally.fusions)
}

/// Adds a line for each number with which packets were refused.
fn note_packets(notes: &mut String, packets: &RefusedPackets) -> Result<(), AllocError> {
    let counts = [
        (SourceFault::NoSource, packets.no_source),
        (SourceFault::ClockBack, packets.clock_back),
        (SourceFault::NoncesUsedUp, packets.nonces_used_up),
        (SourceFault::BadMessage, packets.bad_message),
        (SourceFault::NotMine, packets.not_mine),
        (SourceFault::NotOutstanding, packets.not_outstanding),
        (SourceFault::OtherEpoch, packets.other_epoch),
    ];
    for (fault, count) in counts {
        if count > 0 {
            let number = fault.number();
            write!(
                notes,
                "ttd: packets refused by {number} ({fault}): {count}\n"
            )?;
        }
    }
    Ok(())
}

/// Adds a line for each number with which fusions were refused.
fn note_fusions(notes: &mut String, fusions: &RefusedFusions) -> Result<(), AllocError> {
    let counts = [
        (DaemonFault::ClockBack, fusions.clock_back),
        (DaemonFault::NoPoint, fusions.no_point),
        (DaemonFault::Unknown, fusions.unknown),
    ];
    for (fault, count) in counts {
        if count > 0 {
            let number = fault.number();
            write!(
                notes,
                "ttd: fusions refused by {number} ({fault}): {count}\n"
            )?;
        }
    }
    Ok(())
}

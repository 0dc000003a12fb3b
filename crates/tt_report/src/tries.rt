//! What is logged of a try to write a file.

ghost use Rattle.std.specs.Prelude.{◌≡◌};
ghost use Rattle.tt_report.specs.Try.{evidence_event, status_event};

use tt_status::LogEvent;

/// What is logged of a try to write the status, which failed with this number of the system, or did not. `failed` says whether
/// the try before did.
pub(crate) fn status_event(failed: bool, errno: Option<u64>) -> Option<LogEvent>
    ensures value { result ≡ status_event failed errno }
{
    match errno {
        Some(errno) => Some(LogEvent::StatusUnwritten { errno }),
        None => {
            if failed {
                Some(LogEvent::StatusWritten)
            } else {
                None
            }
        }
    }
}

/// The same of the evidence.
pub(crate) fn evidence_event(failed: bool, errno: Option<u64>) -> Option<LogEvent>
    ensures value { result ≡ evidence_event failed errno }
{
    match errno {
        Some(errno) => Some(LogEvent::EvidenceUnwritten { errno }),
        None => {
            if failed {
                Some(LogEvent::EvidenceWritten)
            } else {
                None
            }
        }
    }
}

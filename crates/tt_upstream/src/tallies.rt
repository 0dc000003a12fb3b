//! Counts.

ghost use Rattle.std.specs.Prelude.{◌≡◌};
ghost use Rattle.tt_upstream.specs.Refusal.{no_tally, asked_tally, taken_tally, refused_tally};

use crate::refusals::is_kiss;
use tt_ntp::NtpFault;

/// How many requests were sent, replies taken, bytes refused that were no kiss, and kisses; and the number of the last
/// refusal, or 0. Each count stays at its greatest number.
#[derive(Clone, Copy)]
pub(crate) struct Tally {
    pub(crate) asked: u64,
    pub(crate) taken: u64,
    pub(crate) refused: u64,
    pub(crate) kisses: u64,
    pub(crate) last_fault: u64,
}

impl Tally {
    /// The counts of a server of which nothing is known.
    pub(crate) fn new() -> Tally
        ensures { result ≡ no_tally }
    {
        Tally {
            asked: 0,
            taken: 0,
            refused: 0,
            kisses: 0,
            last_fault: 0,
        }
    }

    /// The counts once a request was sent.
    pub(crate) fn with_request(self) -> Tally
        ensures { result ≡ asked_tally self }
    {
        Tally {
            asked: self.asked.saturating_add(1),
            ..self
        }
    }

    /// The counts once a reply was taken.
    pub(crate) fn with_reply(self) -> Tally
        ensures { result ≡ taken_tally self }
    {
        Tally {
            taken: self.taken.saturating_add(1),
            ..self
        }
    }

    /// The counts once bytes were refused.
    pub(crate) fn with_refusal(self, fault: NtpFault) -> Tally
        ensures { result ≡ refused_tally self fault }
    {
        let last_fault = u64::from(fault.number());
        if is_kiss(fault) {
            Tally {
                kisses: self.kisses.saturating_add(1),
                last_fault,
                ..self
            }
        } else {
            Tally {
                refused: self.refused.saturating_add(1),
                last_fault,
                ..self
            }
        }
    }
}

//! How long the host slept, by the difference of two clocks.

ghost use Rattle.std.specs.Prelude.{◌≡◌, ◌+◌, ◌-◌, ◌≤◌, ◌<◌, ℕ, MatchOption, Option};
ghost use Rattle.tt_host.specs.Sleep.{IsAtLook, Leads, is_wide as is_wide_lead, lead_of, narrowed as narrowed_leads, slept_between as slept_between_leads};
ghost use Rattle.tt_host.specs.declared.sleeps.Lead.{Lead as TheLead};

/// A lead is wide if its bounds are farther apart than this, in nanoseconds.
const WIDE_LEAD: u64 = 400_000;

/// One look at `CLOCK_BOOTTIME`, between two readings of `CLOCK_MONOTONIC`. All are in nanoseconds.
#[derive(Clone, Copy)]
pub struct Look {
    /// What the monotonic clock showed before the look.
    pub before: u64,
    /// What the clock of the boot showed.
    pub boot: u64,
    /// What the monotonic clock showed after the look.
    pub after: u64,
}

/// Bounds of how far `CLOCK_BOOTTIME` leads `CLOCK_MONOTONIC`, in nanoseconds. It leads by what the host has slept.
#[derive(Clone, Copy)]
pub struct Lead {
    pub least: u64,
    pub most: u64,
}

impl Look {
    /// By how much the clock of the boot led the monotonic one at this look. None where no reading of the monotonic one fits
    /// it: `before` is above `after`, or above `boot`.
    pub fn lead(&self) -> Option<Lead>
        ensures value { result ≡ lead_of self.now }
        ensures bounds { (monotonic : ℕ) → IsAtLook self.now monotonic → MatchOption result ⊥ (λ lead. Leads lead (self.now.boot - monotonic)) }
    {
        if self.before > self.after {
            return None;
        }
        let most = self.boot.checked_sub(self.before)?;
        Some(Lead {
            least: self.boot.saturating_sub(self.after),
            most,
        })
    }
}

/// The shortest time that the host slept between two looks, in nanoseconds: what the lead surely grew by. 0 where delays
/// within the looks explain the difference.
pub fn slept_between(earlier: &Lead, later: &Lead) -> u64
    ensures value { result ≡ slept_between_leads earlier.now later.now }
{
    later.least.saturating_sub(earlier.most)
}

/// The bounds of the lead after a later look: what both bounds have in common, or those of the later look alone, where
/// they have nothing in common.
pub fn narrowed(earlier: &Lead, later: &Lead) -> Lead
    ensures value { result ≡ narrowed_leads earlier.now later.now }
{
    let least = earlier.least.max(later.least);
    let most = earlier.most.min(later.most);
    if least <= most {
        Lead { least, most }
    } else {
        *later
    }
}

/// Whether the bounds are more than 0.4 ms apart: then the look is worth repeating.
pub fn is_wide(lead: &Lead) -> bool
    ensures value { result ≡ is_wide_lead lead.now }
{
    lead.most.saturating_sub(lead.least) > WIDE_LEAD
}

/// Laws of sleep, for two looks at which the clock of the boot showed b1 and b2, and the monotonic one m1 and m2.
pub fn sleep_laws()
    // The host slept at least as long as is said.
    ensures never_more { (earlier later : TheLead) (b1 m1 b2 m2 : ℕ) → m1 ≤ b1 → m2 ≤ b2 → Leads earlier (b1 - m1) → Leads later (b2 - m2) →
        slept_between_leads earlier later ≤ (b2 - m2) - (b1 - m1) }
    // What it slept longer than that is no more than the two leads are wide.
    ensures seen { (earlier later : TheLead) (b1 m1 b2 m2 : ℕ) → m1 ≤ b1 → m2 ≤ b2 → Leads earlier (b1 - m1) → Leads later (b2 - m2) →
        (b2 - m2) - (b1 - m1) ≤ slept_between_leads earlier later + (earlier.most - earlier.least) + (later.most - later.least) }
    // A host that did not sleep has one lead at both looks. It lies within the narrowed bounds.
    ensures narrows { (earlier later : TheLead) (ahead : ℕ) → Leads earlier ahead → Leads later ahead → Leads (narrowed_leads earlier later) ahead }
{}

//! The place of a time on the sheet.

ghost use Rattle.std.specs.Prelude.{◌≡◌, ◌≤◌, ◌<◌};
ghost use Rattle.tt_trace.specs.Sheet.{sheet_of, sheet_with, first_time, last_time, reach_of, share_of, across_of, middle_of as middle_at, upright_of, tick_of};

use crate::marks::Mark;

/// What is shown: true times from `start` to `end`, and bands that go at most `reach` from the true time, all in
/// nanoseconds.
#[derive(Clone, Copy, Debug, PartialEq, Eq)]
pub struct Sheet {
    pub start: u64,
    pub end: u64,
    pub reach: u64,
}

impl Mark {
    /// The true time at which a mark begins.
    fn first(&self) -> u64
        ensures { result ≡ first_time self.now }
    {
        match self {
            Mark::Fusion(band) | Mark::Reading(band) | Mark::Lie(band) => band.at,
            Mark::Commit(course) => course.arrived,
            Mark::Forgery(flag) => flag.at,
        }
    }

    /// The true time at which a mark ends.
    fn last(&self) -> u64
        ensures { result ≡ last_time self.now }
    {
        match self {
            Mark::Fusion(band) | Mark::Reading(band) | Mark::Lie(band) => band.at,
            Mark::Commit(course) => course.released,
            Mark::Forgery(flag) => flag.at,
        }
    }

    /// How far the band of a mark goes from the true time.
    fn reach(&self) -> u64
        ensures { result ≡ reach_of self.now }
    {
        match self {
            Mark::Fusion(band) | Mark::Reading(band) => band
                .at
                .saturating_sub(band.lo)
                .max(band.hi.saturating_sub(band.at)),
            _ => 0,
        }
    }
}

impl Sheet {
    /// The sheet on which all these marks stand.
    pub fn of(marks: &[Mark]) -> Sheet
        ensures { result ≡ sheet_of marks.now }
    {
        let mut sheet = Sheet {
            start: u64::MAX,
            end: 0,
            reach: 1,
        };
        for mark in marks {
            sheet = sheet.with(mark);
        }
        sheet
    }

    /// The sheet with another mark on it.
    fn with(&self, mark: &Mark) -> Sheet
        ensures { result ≡ sheet_with self.now mark.now }
    {
        Sheet {
            start: self.start.min(mark.first()),
            end: self.end.max(mark.last()),
            reach: self.reach.max(mark.reach()),
        }
    }

    /// How far across a true time stands: from 170 at the start to 1100 at the end.
    pub fn across(&self, at: u64) -> u64
        ensures value { result ≡ across_of self.now at }
        ensures bound { result ≤ 1100 }
    {
        170 + share(
            at.min(self.end).saturating_sub(self.start),
            self.end.saturating_sub(self.start),
            930,
        )
    }

    /// How far down a time stands in the lane of a machine, when the true time is `at`: at most 50 from the middle of
    /// the lane, and above the middle if the time is later.
    pub fn upright(&self, machine: u64, at: u64, time: u64) -> u64
        requires { machine < 256 }
        ensures value { result ≡ upright_of self.now machine at time }
        ensures bound { result ≤ 60000 }
    {
        let above = share(time.saturating_sub(at), self.reach, 50);
        let below = share(at.saturating_sub(time), self.reach, 50);
        (middle(machine) + below).saturating_sub(above)
    }

    /// The true time of one of six ticks: the first is at the start and the last at the end.
    pub fn tick(&self, number: u64) -> u64
        requires { number ≤ 5 }
        ensures { result ≡ tick_of self.now number }
    {
        let first = self.start.min(self.end);
        first + share(number, 5, self.end - first)
    }
}

/// How far down the middle of a machine's lane stands.
pub fn middle(machine: u64) -> u64
    requires { machine < 256 }
    ensures value { result ≡ middle_at machine }
    ensures bound { result ≤ 50000 }
{
    132 + 190 * machine
}

/// The length times the share that the part has of the whole, at most the length.
fn share(part: u64, whole: u64, length: u64) -> u64
    ensures value { result ≡ share_of part whole length }
    ensures bound { result ≤ length }
{
    let whole = u128::from(whole.max(1));
    let share = u128::from(part) * u128::from(length) / whole;
    share.min(u128::from(length)) as u64
}

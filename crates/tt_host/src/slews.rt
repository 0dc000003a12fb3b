//! How fast `CLOCK_MONOTONIC`, which an NTP daemon slews, goes against the raw clock.

ghost use Rattle.std.specs.Prelude.{◌≡◌, ◌+◌, ◌-◌, ◌*◌, ◌≤◌, ◌<◌, ℕ, true, false};
ghost use Rattle.tt_host.specs.Slew.{KeepsSlew, LooksAt, gap_between, keeps_slew as keeps, new_slewing, new_watch, news_of, rate_between, slewing_after, watch_after};
ghost use Rattle.tt_host.specs.declared.slews.SlewLook.{SlewLook as TheLook};
ghost use Rattle.tt_span.specs.Drift.{distance};

/// A million: bounds are in parts of it.
const MILLION: u128 = 1_000_000;

/// A billion: rates are in parts of it.
const BILLION: u128 = 1_000_000_000;

/// One look at `CLOCK_MONOTONIC`, between two readings of the raw clock. All are in nanoseconds.
#[derive(Clone, Copy, Debug, PartialEq, Eq)]
pub struct SlewLook {
    /// What the raw clock showed before the look.
    pub before: u64,
    /// What `CLOCK_MONOTONIC` showed.
    pub slewed: u64,
    /// What the raw clock showed after the look.
    pub after: u64,
}

/// How fast `CLOCK_MONOTONIC` went against the raw clock: faster by `size` parts per billion, or slower where `below` is set.
#[derive(Clone, Copy, Debug, PartialEq, Eq)]
pub struct SlewRate {
    pub below: bool,
    pub size: u64,
}

/// How far a distance lies outside these bounds.
fn gap_between(distance: u64, least: u64, most: u64) -> u64
    ensures value { result ≡ gap_between distance least most }
{
    if distance < least {
        least - distance
    } else {
        distance.saturating_sub(most)
    }
}

/// Whether `CLOCK_MONOTONIC` may have kept this bound between two looks: that it went no more than `slew` parts per million of its
/// own distance faster or slower than the raw clock. Not if it went back.
pub fn keeps_slew(earlier: &SlewLook, later: &SlewLook, slew: u32) -> bool
    ensures value { result ≡ keeps earlier.now later.now slew }
{
    let Some(went) = later.slewed.checked_sub(earlier.slewed) else {
        return false;
    };
    let least = later.before.saturating_sub(earlier.after);
    let most = later.after.saturating_sub(earlier.before);
    let gap = gap_between(went, least, most);
    u128::from(gap) * MILLION <= u128::from(slew) * u128::from(went)
}

/// How fast `CLOCK_MONOTONIC` went against the raw clock between two looks, in the middle of each, rounded down to whole parts per
/// billion. None where the raw clock did not go on.
pub fn slew_between(earlier: &SlewLook, later: &SlewLook) -> Option<SlewRate>
    ensures value { result ≡ rate_between earlier.now later.now }
{
    let to = u128::from(later.before) + u128::from(later.after);
    let from = u128::from(earlier.before) + u128::from(earlier.after);
    if to <= from {
        return None;
    }
    let raw = to - from;
    let slewed = 2 * u128::from(later.slewed.saturating_sub(earlier.slewed));
    Some(SlewRate {
        below: slewed < raw,
        size: u64::try_from(slewed.abs_diff(raw) * BILLION / raw).unwrap_or(u64::MAX),
    })
}

/// What is known of how `CLOCK_MONOTONIC` is slewed.
#[derive(Clone, Copy, Debug, PartialEq, Eq)]
pub struct Slewing {
    /// How fast it went between the last two looks. None before the second.
    pub rate: Option<SlewRate>,
    /// Whether it went faster or slower between them than its bound allows.
    pub is_too_fast: bool,
    /// How often that began.
    pub begun: u64,
}

impl Slewing {
    /// Nothing is known.
    pub fn new() -> Slewing
        ensures new { result ≡ new_slewing }
    {
        Slewing {
            rate: None,
            is_too_fast: false,
            begun: 0,
        }
    }
}

/// What a look of [`SlewWatch::note`] changed.
#[derive(Clone, Copy, Debug, PartialEq, Eq)]
pub enum SlewNews {
    /// It keeps its bound, or breaks it, as before.
    Nothing,
    /// It breaks its bound now.
    Begun,
    /// It keeps its bound again.
    Over,
}

/// What is known after two looks.
fn slewing_after(before: Slewing, earlier: &SlewLook, later: &SlewLook, slew: u32) -> Slewing
    ensures value { result ≡ slewing_after before earlier.now later.now slew }
{
    let is_too_fast = !keeps_slew(earlier, later, slew);
    let begins = is_too_fast && !before.is_too_fast;
    Slewing {
        rate: slew_between(earlier, later),
        is_too_fast,
        begun: before.begun.saturating_add(u64::from(begins)),
    }
}

/// What changed.
fn news_of(was_too_fast: bool, is_too_fast: bool) -> SlewNews
    ensures value { result ≡ news_of was_too_fast is_too_fast }
{
    match (was_too_fast, is_too_fast) {
        (false, true) => SlewNews::Begun,
        (true, false) => SlewNews::Over,
        _ => SlewNews::Nothing,
    }
}

/// Watches how fast `CLOCK_MONOTONIC` goes against the raw clock.
#[derive(Clone, Copy)]
pub struct SlewWatch {
    /// The last look.
    pub last: Option<SlewLook>,
    /// What is known by it and the one before.
    pub slewing: Slewing,
}

impl SlewWatch {
    /// No look was made.
    pub fn new() -> SlewWatch
        ensures new { result ≡ new_watch }
    {
        SlewWatch {
            last: None,
            slewing: Slewing::new(),
        }
    }

    /// Notes a look, by this bound in parts per million.
    pub fn note(&mut self, look: SlewLook, slew: u32) -> SlewNews
        ensures noted { self.new ≡ watch_after self.old look slew }
        ensures news { result ≡ news_of self.old.slewing.is_too_fast self.new.slewing.is_too_fast }
    {
        let was_too_fast = self.slewing.is_too_fast;
        if let Some(last) = self.last {
            self.slewing = slewing_after(self.slewing, &last, &look, slew);
        }
        self.last = Some(look);
        news_of(was_too_fast, self.slewing.is_too_fast)
    }
}

/// Laws of slewing, for two looks at whose readings of `CLOCK_MONOTONIC` the raw clock showed r1 and r2.
pub fn slew_laws()
    // A bound that was kept is never said to be broken.
    ensures never_wrongly { (earlier later : TheLook) (r1 r2 slew : ℕ) → LooksAt earlier r1 → LooksAt later r2 → KeepsSlew slew (r2 - r1) (later.slewed - earlier.slewed) →
        r1 ≤ r2 → earlier.slewed ≤ later.slewed → keeps earlier later slew ≡ true }
    // A bound that was broken by more than the two looks lasted is seen.
    ensures seen { (earlier later : TheLook) (r1 r2 slew : ℕ) → LooksAt earlier r1 → LooksAt later r2 → r1 ≤ r2 →
        slew * (later.slewed - earlier.slewed) + ((earlier.after - earlier.before) + (later.after - later.before)) * 1000000 < distance (r2 - r1) (later.slewed - earlier.slewed) * 1000000 →
        keeps earlier later slew ≡ false }
{}

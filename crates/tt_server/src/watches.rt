//! What the daemon's thread looks at of its host in each round: whether the host slept, whether a guest was disrupted, and how
//! fast `CLOCK_MONOTONIC` goes against the machine's clock.

ghost use Rattle.std.specs.Prelude.{◌≡◌, None, Some, IfSome, false};
ghost use Rattle.tt_host.specs.declared.clocks.HostClock.TheVariants.{Monotonic};
ghost use Rattle.tt_host.specs.Slew.{watch_after};
ghost use Rattle.tt_server.specs.Watch.{base_by, event_of_slewing, shared_by};

use crate::states::Life;
use tt_host::{
    GuestWatch, HostClock, HostClocks, SleepWatch, SlewLook, SlewNews, SlewWatch, Slewing,
    look_at_slewed,
};
use tt_shared::SharedSpan;
use tt_sharing::with_slewed;
use tt_status::{Difference, LogEvent};
use tt_telemetry::gain_in;

/// No rate: the clocks went alike, or one did not go on.
const NO_GAIN: Difference = Difference {
    below: false,
    size: 0,
};

/// What is known of the host.
#[derive(Drop)]
pub(crate) struct HostWatch<'a> {
    pub(crate) sleep: SleepWatch,
    pub(crate) guest: GuestWatch,
    /// The counter of a guest's disruptions, if the settings name one.
    pub(crate) vmclock: Option<&'a str>,
    pub(crate) slew: SlewWatch,
    /// The look of this round at `CLOCK_MONOTONIC`, if readers may go by that clock until the next.
    pub(crate) base: Option<SlewLook>,
}

impl<'a> HostWatch<'a> {
    /// Nothing was looked at.
    pub(crate) fn new(vmclock: Option<&'a str>) -> HostWatch<'a> {
        HostWatch {
            sleep: SleepWatch::new(),
            guest: GuestWatch::new(),
            vmclock,
            slew: SlewWatch::new(),
            base: None,
        }
    }

    /// Notes a look at `CLOCK_MONOTONIC`, by this bound in parts per million. Readers may go by that clock only if it kept its
    /// bound since the look before.
    fn note(&mut self, look: SlewLook, slew: u32) -> SlewNews
        ensures base { self.new.base ≡ base_by look self.new.slew.slewing.is_too_fast }
        ensures noted { self.new.slew ≡ watch_after self.old.slew look slew }
    {
        let news = self.slew.note(look, slew);
        self.base = if self.slew.slewing.is_too_fast {
            None
        } else {
            Some(look)
        };
        news
    }

    /// Looks how fast `CLOCK_MONOTONIC` goes, if the machine's clock is another. Without a look readers may not go by that clock.
    pub(crate) fn look_at_slewed<R: HostClocks>(
        &mut self,
        rt: &R,
        clock: HostClock,
        slew: u32,
    ) -> SlewNews
        ensures same { clock ≡ Monotonic → (self.new.base ≡ None) × (self.new.slew ≡ self.old.slew) }
        ensures kept { IfSome self.new.base (λ look. (self.new.slew.last ≡ Some look) × (self.new.slew.slewing.is_too_fast ≡ false)) }
    {
        self.base = None;
        match clock {
            HostClock::Monotonic => SlewNews::Nothing,
            HostClock::Raw => match look_at_slewed(rt) {
                Some(look) => self.note(look, slew),
                None => SlewNews::Nothing,
            },
        }
    }
}

/// What is logged of a look at `CLOCK_MONOTONIC`: that it begins to go faster or slower than the settings allow, and that this is
/// over.
pub(crate) fn event_of_slewing(news: SlewNews, slewing: &Slewing, slew: u32) -> Option<LogEvent>
    ensures value { result ≡ event_of_slewing news slewing.now slew }
{
    match news {
        SlewNews::Nothing => None,
        SlewNews::Begun => Some(LogEvent::SlewTooFast {
            rate: gain_in(slewing.rate).unwrap_or(NO_GAIN),
            slew: u64::from(slew),
        }),
        SlewNews::Over => Some(LogEvent::SlewInBounds),
    }
}

/// What is shared of a publication: with a second base by this look at `CLOCK_MONOTONIC`, or without one.
pub(crate) fn shared_by(span: &SharedSpan, base: &Option<SlewLook>, life: &Life) -> SharedSpan
    ensures value { result ≡ shared_by span.now base.now life.now.slew life.now.max_width }
{
    match base {
        Some(look) => with_slewed(span, look, life.slew, life.max_width),
        None => *span,
    }
}

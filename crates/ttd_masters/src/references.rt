//! From what a master knows the time: a clock of this computer, or NTP servers.

ghost use Rattle.std.specs.Prelude.{◌≡◌, ◌≤◌};
ghost use Rattle.tt_span.specs.Time.{max_time};

use crate::clocks::{RealTime, device_time, slewed_time};
use crate::hosts::AsksServers;
use crate::upstreams::{SharedServer, Upstream};
use std::sync::Wait;
use std::time::Clock as SystemClock;
use tt_clock::{MachineClock, reading_of};
use tt_fuse::check_counts;
use tt_host::{DeviceClock, Sleep, SleepWatch};
use tt_master::{RealTimeWatch, Reference, Silence, SpanReference, stated_span};
use tt_publish::Clock;
use tt_report::Reporter;
use tt_span::{Drift, MAX_TIME, Span};
use tt_status::LogEvent;
use tt_upstream::fused;
use ttd_words::Offset;

/// The most servers of a master.
pub(crate) const MAX_SERVERS: usize = 16;

/// A time, and what a clock showed before and after it was read, all in nanoseconds.
#[derive(Clone, Copy)]
struct Look {
    before: u64,
    time: u64,
    after: u64,
}

impl Look {
    /// Whether the watch finds this look explained by what is allowed. Says `Clock` where the clock fell meanwhile, and `Stepped`
    /// where it does not.
    fn pass(&self, watch: &mut RealTimeWatch) -> Result<(), Silence>
        requires { self.now.time ≤ max_time }
    {
        if self.after < self.before || self.after > MAX_TIME {
            return Err(Silence::Clock);
        }
        if watch.look(self.before, self.time, self.after) {
            return Err(Silence::Stepped);
        }
        Ok(())
    }
}

/// This computer's real-time clock, which is off by no more than an uncertainty, and watches for its steps and of what was stated.
#[derive(Drop)]
pub(crate) struct StatedTime<'a, H> {
    rt: &'a H,
    real: RealTime<'a, H>,
    monotonic: MachineClock<'a, H>,
    uncertainty: u64,
    steps: RealTimeWatch,
    statement: RealTimeWatch,
}

impl<'a, H: SystemClock> StatedTime<'a, H> {
    /// The real-time clock with this offset and this uncertainty, in nanoseconds, beside an oscillator with this drift.
    pub(crate) fn new(rt: &'a H, offset: Offset, uncertainty: u64, drift: Drift) -> Self
        requires { uncertainty ≤ max_time }
    {
        StatedTime {
            rt,
            real: RealTime::new(rt, offset),
            monotonic: MachineClock::new(rt),
            uncertainty,
            steps: RealTimeWatch::of_steps(),
            statement: RealTimeWatch::of_statement(uncertainty, drift),
        }
    }
}

impl<'a, H: SystemClock + AsksServers> SpanReference for StatedTime<'a, H> {
    ghost gives = { λ _ _ _. Unit {0} };

    /// The time of the clock, plus and minus the uncertainty. Says `Clock` where a clock can't be read, and `Stepped` from the
    /// first step of the real-time clock on, and from when it can't be as near to true time as was stated.
    fn read(&mut self) -> Result<Span, Silence> {
        let (Ok(before), Some(slewed), Ok(time), Some(slewed_after), Ok(after)) = (
            self.monotonic.read(),
            slewed_time(self.rt),
            self.real.read(),
            slewed_time(self.rt),
            self.monotonic.read(),
        ) else {
            return Err(Silence::Clock);
        };
        let beside_slewed = Look {
            before: slewed,
            time,
            after: slewed_after,
        };
        let look = Look {
            before,
            time,
            after,
        };
        beside_slewed.pass(&mut self.steps)?;
        look.pass(&mut self.statement)?;
        if self.uncertainty > MAX_TIME {
            return Err(Silence::Clock);
        }
        Ok(stated_span(self.uncertainty, time))
    }
}

/// A hardware clock of this computer, which is off by no more than an uncertainty, and a watch of what was stated.
#[derive(Drop)]
pub(crate) struct DeviceTime<'a, H> {
    clock: DeviceClock,
    tai_offset: u64,
    monotonic: MachineClock<'a, H>,
    uncertainty: u64,
    statement: RealTimeWatch,
}

impl<'a, H: SystemClock> DeviceTime<'a, H> {
    /// This clock, which shows TAI, so many seconds ahead of UTC, with this uncertainty in nanoseconds, beside an oscillator with
    /// this drift.
    pub(crate) fn new(
        rt: &'a H,
        clock: DeviceClock,
        tai_offset: u64,
        uncertainty: u64,
        drift: Drift,
    ) -> Self
        requires { uncertainty ≤ max_time }
    {
        DeviceTime {
            clock,
            tai_offset,
            monotonic: MachineClock::new(rt),
            uncertainty,
            statement: RealTimeWatch::of_statement(uncertainty, drift),
        }
    }
}

impl<'a, H: SystemClock> SpanReference for DeviceTime<'a, H> {
    ghost gives = { λ _ _ _. Unit {0} };

    /// The time of the clock, plus and minus the uncertainty. Says `Clock` where a clock can't be read, and `Stepped` from when
    /// it can't be as near to true time as was stated.
    fn read(&mut self) -> Result<Span, Silence> {
        let (Ok(before), Some(time), Ok(after)) = (
            self.monotonic.read(),
            device_time(&self.clock, self.tai_offset),
            self.monotonic.read(),
        ) else {
            return Err(Silence::Clock);
        };
        let look = Look {
            before,
            time,
            after,
        };
        look.pass(&mut self.statement)?;
        if self.uncertainty > MAX_TIME {
            return Err(Silence::Clock);
        }
        Ok(stated_span(self.uncertainty, time))
    }
}

/// NTP servers, of which so many may be faulty. Those on this host are asked before a poll is answered, each if a request is
/// due; the others by threads of their own.
#[derive(Drop)]
pub(crate) struct NtpServers<'a, H> {
    rt: &'a H,
    reporter: &'a Reporter,
    near: Vec<Upstream>,
    servers: Vec<SharedServer>,
    faulty: usize,
    sleep: SleepWatch,
}

impl<'a, H: Wait + SystemClock + AsksServers> NtpServers<'a, H> {
    /// These servers, of which those of `near` are on this host.
    pub(crate) fn new(
        rt: &'a H,
        reporter: &'a Reporter,
        near: Vec<Upstream>,
        servers: Vec<SharedServer>,
        faulty: usize,
    ) -> Self {
        NtpServers {
            rt,
            reporter,
            near,
            servers,
            faulty,
            sleep: SleepWatch::new(),
        }
    }

    /// What is known of each server, in their order.
    pub(crate) fn servers(&self) -> &[SharedServer] {
        &self.servers
    }

    /// Where the host slept since the last look, drops what is known of each server, and logs it.
    fn notice_sleep(&mut self) {
        if let Sleep::Slept(slept) = self.rt.look(&mut self.sleep) {
            for server in self.servers.iter() {
                server.lock(self.rt).forget();
            }
            self.reporter.log(self.rt, LogEvent::HostSlept { slept });
        }
    }

    /// Asks the servers on this host to which a request is due.
    fn ask_near(&mut self) {
        for upstream in self.near.iter_mut() {
            upstream.ask_if_due(self.rt, self.reporter)
        }
    }

    /// What each server says at this reading of the monotonic clock, in nanoseconds, in their order.
    fn said(&self, now: u64) -> [Result<Span, Silence>; MAX_SERVERS] {
        let mut said = [Err(Silence::Unanswered); MAX_SERVERS];
        for (place, server) in self.servers.iter().enumerate() {
            if place < MAX_SERVERS {
                said[place] = server.lock(self.rt).span(now);
            }
        }
        said
    }
}

impl<'a, H: Wait + SystemClock + AsksServers> SpanReference for NtpServers<'a, H> {
    ghost gives = { λ _ _ _. Unit {0} };

    /// What the servers say, fused. What they said before the host slept is dropped.
    fn read(&mut self) -> Result<Span, Silence> {
        self.ask_near();
        self.notice_sleep();
        let Some(now) = reading_of(self.rt) else {
            return Err(Silence::Clock);
        };
        let all = self.said(now);
        let said = &all[..self.servers.len().min(MAX_SERVERS)];
        match check_counts(said.len(), self.faulty) {
            Ok(()) => fused(said, self.faulty),
            Err(_) => Err(Silence::Unanswered),
        }
    }
}

/// From what a master knows the time.
#[derive(Drop)]
pub(crate) enum KnownTime<'a, H> {
    /// From this computer's real-time clock.
    Stated(StatedTime<'a, H>),
    /// From a hardware clock.
    Device(DeviceTime<'a, H>),
    /// From NTP servers.
    Ntp(NtpServers<'a, H>),
}

impl<'a, H: Wait + SystemClock + AsksServers> SpanReference for KnownTime<'a, H> {
    ghost gives = { λ _ _ _. Unit {0} };

    fn read(&mut self) -> Result<Span, Silence> {
        match self {
            KnownTime::Stated(clock) => clock.read(),
            KnownTime::Device(clock) => clock.read(),
            KnownTime::Ntp(servers) => servers.read(),
        }
    }
}

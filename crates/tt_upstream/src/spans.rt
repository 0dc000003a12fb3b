//! What a server says.

ghost use Rattle.std.specs.Prelude.{◌≡◌, IfOk};
ghost use Rattle.tt_span.specs.Interval.{IsInterval};
ghost use Rattle.tt_upstream.specs.Leap.{leap_number as leap_number_of};
ghost use Rattle.tt_upstream.specs.Span.{age_at, span_at, distance_of, stratum_of};

use crate::leaps::{is_near, leap_number};
use crate::servers::Server;
use tt_master::Silence;
use tt_span::Span;

impl Server {
    /// What the server says of the true time at the clock reading `now`: the statement of its last reply that was taken, aged
    /// by the drift of the plan. Where it says nothing, the first of these reasons that applies: 2405 `Stopped` where it told
    /// this client to stop; 2404 `Refused` where its last reply was refused; 2402 `Unanswered` where no reply was taken; 2403
    /// `Old` where the request of the reply was sent more than `max_age` ago; 2401 `Clock` where `now` is below the reading at
    /// which the reply came, or above `MAX_TIME`; 2406 `Leap` where the aged statement reaches the last minute before the
    /// leap second that was announced.
    #[tactic(auto, unfolding(crate::specs::Span::span_at, crate::specs::Span::applies))]
    pub fn span(&self, now: u64) -> Result<Span, Silence>
        ensures exact { result ≡ span_at self.now now }
        ensures valid { IfOk result (λ span. IsInterval span) }
    {
        if self.stopped {
            return Err(Silence::Stopped);
        }
        if self.refused {
            return Err(Silence::Refused);
        }
        let Some(known) = self.known else {
            return Err(Silence::Unanswered);
        };
        if now.saturating_sub(known.statement.sent()) > self.plan.max_age {
            return Err(Silence::Old);
        }
        let Ok(span) = known.statement.aged(self.plan.drift, now) else {
            return Err(Silence::Clock);
        };
        if is_near(self.leap, span) {
            return Err(Silence::Leap);
        }
        Ok(span)
    }

    /// The stratum of the server, 1 to 15, by its last reply that was taken. 0 where none is known.
    pub fn stratum(&self) -> u64
        ensures { result ≡ stratum_of self.now.known }
    {
        match self.known {
            None => 0,
            Some(known) => u64::from(known.stratum),
        }
    }

    /// Half the width of the span of the last reply that was taken, with the margin, in nanoseconds, rounded down. 0 where
    /// none is known.
    pub fn distance(&self) -> u64
        ensures { result ≡ distance_of self.now.known }
    {
        match self.known {
            None => 0,
            Some(known) => {
                let span = known.statement.span();
                (span.hi() - span.lo()) / 2
            }
        }
    }

    /// How long before the clock reading `now` the request was sent whose reply is known, in nanoseconds. 0 where none is
    /// known, or where `now` is below the reading of that request.
    pub fn age(&self, now: u64) -> u64
        ensures { result ≡ age_at self.now.known now }
    {
        match self.known {
            None => 0,
            Some(known) => now.saturating_sub(known.statement.sent()),
        }
    }

    /// What the last reply that was taken announced: 0 no leap second, 1 one that is inserted, 2 one that is deleted.
    pub fn leap(&self) -> u64
        ensures { result ≡ leap_number_of self.now.leap }
    {
        leap_number(self.leap)
    }

    /// How many requests were sent, at most `u64::MAX`.
    pub fn asked(&self) -> u64
        ensures { result ≡ self.now.tally.asked }
    {
        self.tally.asked
    }

    /// How many replies were taken, at most `u64::MAX`. One that is put off for a leap second is not taken.
    pub fn taken(&self) -> u64
        ensures { result ≡ self.now.tally.taken }
    {
        self.tally.taken
    }

    /// How often bytes were refused, but for kiss codes, at most `u64::MAX`.
    pub fn refused(&self) -> u64
        ensures { result ≡ self.now.tally.refused }
    {
        self.tally.refused
    }

    /// How often the server answered with a kiss code (2307 to 2310), at most `u64::MAX`.
    pub fn kisses(&self) -> u64
        ensures { result ≡ self.now.tally.kisses }
    {
        self.tally.kisses
    }

    /// The number of the last refusal, 0 where nothing was refused.
    pub fn last_fault(&self) -> u64
        ensures { result ≡ self.now.tally.last_fault }
    {
        self.tally.last_fault
    }
}

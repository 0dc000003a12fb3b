//! What a daemon's rounds count.

ghost use Rattle.std.specs.Prelude.{◌≡◌, ◌+◌, ◌<◌, ◌^◌};
ghost use Rattle.tt_rounds.specs.Tallies.{no_tally, packet_refused, fusion_refused, refused_in};

use tt_daemon::DaemonFault;
use tt_source::SourceFault;

/// How many packets were refused, by the number of the refusal.
#[derive(Clone, Copy, Debug, PartialEq, Eq)]
pub struct RefusedPackets {
    /// Rejected with 401.
    pub no_source: u64,
    /// Rejected with 402.
    pub clock_back: u64,
    /// Rejected with 403.
    pub nonces_used_up: u64,
    /// Rejected with 404.
    pub bad_message: u64,
    /// Rejected with 405.
    pub not_mine: u64,
    /// Rejected with 406.
    pub not_outstanding: u64,
    /// Rejected with 407.
    pub other_epoch: u64,
}

/// How many fusions were refused, by the number of the refusal.
#[derive(Clone, Copy, Debug, PartialEq, Eq)]
pub struct RefusedFusions {
    /// Rejected with 402.
    pub clock_back: u64,
    /// Rejected with 504.
    pub no_point: u64,
    /// Rejected with 701.
    pub unknown: u64,
}

/// What some rounds counted.
#[derive(Clone, Copy, Debug, PartialEq, Eq)]
pub struct Tally {
    /// How many polls were sent.
    pub polls: u64,
    /// How many packets were taken.
    pub taken: u64,
    /// How many packets were refused.
    pub packets: RefusedPackets,
    /// How many fusions were refused.
    pub fusions: RefusedFusions,
}

impl Tally {
    /// A tally in which nothing was counted yet.
    pub(crate) fn new() -> Tally
        ensures { result ≡ no_tally }
    {
        Tally {
            polls: 0,
            taken: 0,
            packets: RefusedPackets {
                no_source: 0,
                clock_back: 0,
                nonces_used_up: 0,
                bad_message: 0,
                not_mine: 0,
                not_outstanding: 0,
                other_epoch: 0,
            },
            fusions: RefusedFusions {
                clock_back: 0,
                no_point: 0,
                unknown: 0,
            },
        }
    }

    /// Counts a packet that was refused for this reason.
    pub(crate) fn refuse_packet(&mut self, fault: SourceFault)
        requires room { refused_in self.old + 1 < 2 ^ 64 }
        ensures { self.new ≡ packet_refused fault self.old }
    {
        match fault {
            SourceFault::NoSource => self.packets.no_source += 1,
            SourceFault::ClockBack => self.packets.clock_back += 1,
            SourceFault::NoncesUsedUp => self.packets.nonces_used_up += 1,
            SourceFault::BadMessage => self.packets.bad_message += 1,
            SourceFault::NotMine => self.packets.not_mine += 1,
            SourceFault::NotOutstanding => self.packets.not_outstanding += 1,
            SourceFault::OtherEpoch => self.packets.other_epoch += 1,
        }
    }

    /// Counts a fusion that was refused for this reason.
    pub(crate) fn refuse_fusion(&mut self, fault: DaemonFault)
        requires room { refused_in self.old + 1 < 2 ^ 64 }
        ensures { self.new ≡ fusion_refused fault self.old }
    {
        match fault {
            DaemonFault::ClockBack => self.fusions.clock_back += 1,
            DaemonFault::NoPoint => self.fusions.no_point += 1,
            DaemonFault::Unknown => self.fusions.unknown += 1,
        }
    }

    /// How many packets and fusions were refused.
    pub(crate) fn refused(&self) -> u64
        requires fits { refused_in self.now < 2 ^ 64 }
        ensures { result ≡ refused_in self.now }
    {
        let packets = &self.packets;
        let fusions = &self.fusions;
        packets.no_source
            + packets.clock_back
            + packets.nonces_used_up
            + packets.bad_message
            + packets.not_mine
            + packets.not_outstanding
            + packets.other_epoch
            + fusions.clock_back
            + fusions.no_point
            + fusions.unknown
    }
}

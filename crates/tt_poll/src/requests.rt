//! Requests, with their ranges in their type.

ghost use Rattle.std.specs.Prelude.{◌≡◌, ◌<◌, ◌≤◌, ◌↔◌, ◌⊎◌, IsOk, IfOk, IsErrOf};
ghost use Rattle.tt_poll.specs.Message.{max_machine, max_source, PollRequest, IsRequest};

use crate::faults::PollFault;
use std::marker::Model;

/// The greatest number of a machine.
pub const MAX_MACHINE: u8 = 7;

/// The greatest number of a source.
pub const MAX_SOURCE: u8 = 15;

/// What a machine asks a source: the number of the machine, at most [`MAX_MACHINE`], the number of the source, at most
/// [`MAX_SOURCE`], and a nonce that is not 0. The answer repeats the nonce.
#[derive(Clone, Copy, Debug, PartialEq, Eq)]
pub struct Request {
    machine: u8,
    source: u8,
    nonce: u64,
}

impl Model for Request {
    ghost use Rattle.tt_poll.specs.Message.{PollRequest, IsRequest};

    ghost Value = { PollRequest };

    ghost view = { λ r. record { machine = r.machine; source = r.source; nonce = r.nonce } };

    ghost invariant = { λ r. IsRequest (record { machine = r.machine; source = r.source; nonce = r.nonce }) };

    ghost inverse = { λ r. record { machine = r.machine; source = r.source; nonce = r.nonce } };
}

impl Request {
    /// The request of `machine` to `source` with `nonce`. Refuses, in this order: 205 `Number` where the machine is
    /// above [`MAX_MACHINE`] or the source is above [`MAX_SOURCE`], 206 `Nonce` where the nonce is 0.
    pub fn new(machine: u8, source: u8, nonce: u64) -> Result<Request, PollFault>
        ensures taken { IsOk result ↔ ((machine ≤ max_machine) × (source ≤ max_source) × (0 < nonce)) }
        ensures value { IfOk result (λ r. r ≡ record { machine = machine; source = source; nonce = nonce }) }
        ensures no_number { IsErrOf result PollFault.Number ↔ ((max_machine < machine) ⊎ (max_source < source)) }
        ensures no_nonce { IsErrOf result PollFault.Nonce ↔ ((machine ≤ max_machine) × (source ≤ max_source) × (nonce ≡ 0)) }
    {
        if machine > MAX_MACHINE || source > MAX_SOURCE {
            return Err(PollFault::Number);
        }
        if nonce == 0 {
            return Err(PollFault::Nonce);
        }
        Ok(Request {
            machine,
            source,
            nonce,
        })
    }

    /// The machine that asks, at most [`MAX_MACHINE`].
    pub fn machine(&self) -> u8
        ensures value { result ≡ self.now.machine }
        ensures valid { IsRequest self.now }
    {
        self.machine
    }

    /// The source that is asked, at most [`MAX_SOURCE`].
    pub fn source(&self) -> u8
        ensures value { result ≡ self.now.source }
        ensures valid { IsRequest self.now }
    {
        self.source
    }

    /// The nonce, which is not 0.
    pub fn nonce(&self) -> u64
        ensures value { result ≡ self.now.nonce }
        ensures valid { IsRequest self.now }
    {
        self.nonce
    }
}

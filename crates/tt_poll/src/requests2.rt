//! Requests with an epoch, with their ranges in their type.

ghost use Rattle.std.specs.Prelude.{◌≡◌, ◌<◌, ◌≤◌, ◌↔◌, ◌⊎◌, ◌==◌, if◌then◌else◌, Ok, Err, IsOk, IfOk, IsErrOf};
ghost use Rattle.tt_poll.specs.Message.{max_machine, max_source, PollRequest, PollRequest2, IsRequest2};

use crate::faults::PollFault;
use crate::requests::Request;
use std::marker::Model;

/// What a machine asks a source in one of its lives: a request, and an epoch that is not 0, the number of this life.
#[derive(Clone, Copy, Debug, PartialEq, Eq)]
pub struct Request2 {
    request: Request,
    epoch: u64,
}

impl Model for Request2 {
    ghost use Rattle.tt_poll.specs.Message.{PollRequest2, IsRequest2};

    ghost Value = { PollRequest2 };

    ghost view = { λ r. record { machine = r.request.machine; source = r.request.source; nonce = r.request.nonce; epoch = r.epoch } };

    ghost invariant = { λ r. IsRequest2 (record { machine = r.request.machine; source = r.request.source; nonce = r.request.nonce; epoch = r.epoch }) };

    ghost inverse = { λ r. record { request = record { machine = r.machine; source = r.source; nonce = r.nonce }; epoch = r.epoch } };
}

impl Request2 {
    /// The request of `machine` to `source` with `nonce`, in the life `epoch`. Refuses, in this order: 205 `Number`
    /// where the machine is above 7 or the source is above 15, 206 `Nonce` where the nonce is 0, 208 `Epoch` where the
    /// epoch is 0.
    pub fn new(machine: u8, source: u8, nonce: u64, epoch: u64) -> Result<Request2, PollFault>
        ensures taken { IsOk result ↔ ((machine ≤ max_machine) × (source ≤ max_source) × (0 < nonce) × (0 < epoch)) }
        ensures value { IfOk result (λ r. r ≡ record { machine = machine; source = source; nonce = nonce; epoch = epoch }) }
        ensures no_number { IsErrOf result PollFault.Number ↔ ((max_machine < machine) ⊎ (max_source < source)) }
        ensures no_nonce { IsErrOf result PollFault.Nonce ↔ ((machine ≤ max_machine) × (source ≤ max_source) × (nonce ≡ 0)) }
        ensures no_epoch { IsErrOf result PollFault.Epoch ↔ ((machine ≤ max_machine) × (source ≤ max_source) × (0 < nonce) × (epoch ≡ 0)) }
    {
        let request = Request::new(machine, source, nonce)?;
        Request2::at_epoch(request, epoch)
    }

    /// The same request in the life `epoch`. Refuses with 208 `Epoch` where the epoch is 0.
    pub(crate) fn at_epoch(request: Request, epoch: u64) -> Result<Request2, PollFault>
        ensures { result ≡ (if epoch == 0 then Err PollFault.Epoch else Ok (record { machine = request.machine; source = request.source; nonce = request.nonce; epoch = epoch })) }
    {
        if epoch == 0 {
            return Err(PollFault::Epoch);
        }
        prove!(request.nonce() > 0);
        Ok(Request2 { request, epoch })
    }

    /// The request without its epoch.
    pub(crate) fn request(&self) -> Request
        ensures { result ≡ record { machine = self.now.machine; source = self.now.source; nonce = self.now.nonce } }
    {
        self.request
    }

    /// The machine that asks, at most 7.
    pub fn machine(&self) -> u8
        ensures value { result ≡ self.now.machine }
        ensures valid { IsRequest2 self.now }
    {
        self.request.machine()
    }

    /// The source that is asked, at most 15.
    pub fn source(&self) -> u8
        ensures value { result ≡ self.now.source }
        ensures valid { IsRequest2 self.now }
    {
        self.request.source()
    }

    /// The nonce, which is not 0.
    pub fn nonce(&self) -> u64
        ensures value { result ≡ self.now.nonce }
        ensures valid { IsRequest2 self.now }
    {
        self.request.nonce()
    }

    /// The epoch, which is not 0.
    pub fn epoch(&self) -> u64
        ensures value { result ≡ self.now.epoch }
        ensures valid { IsRequest2 self.now }
    {
        self.epoch
    }
}

//! What a link keeps of the packets of a peer that were to be opened.

ghost use Rattle.std.specs.Prelude.{◌≡◌, ◌<◌};
ghost use Rattle.tt_rounds.specs.Hearing.{no_opening, fault_place, counted_by, opening_with, opening_without};

use tt_seal::SealFault;

/// How many reasons there are why bytes do not open.
pub(crate) const REASONS: usize = 3;

/// What is kept of the packets of one peer: the number of the key of the last one that opened, and how many did not, by
/// the reasons in their order.
#[derive(Clone, Copy)]
pub(crate) struct Opening {
    pub(crate) number: Option<u32>,
    pub(crate) unopened: [u64; REASONS],
}

/// The place of a reason among them.
fn place_of(fault: SealFault) -> usize
    ensures value { result ≡ fault_place fault }
    ensures within { result < 3 }
{
    match fault {
        SealFault::Length => 0,
        SealFault::UnknownKey => 1,
        SealFault::WrongTag => 2,
    }
}

/// The counts after one more packet that did not open for this reason. A count stays at 2^64 - 1.
pub(crate) fn counted(counts: [u64; REASONS], fault: SealFault) -> [u64; REASONS]
    ensures { result ≡ counted_by fault counts }
{
    let place = place_of(fault);
    let mut counts = counts;
    counts[place] = counts[place].saturating_add(1);
    counts
}

impl Opening {
    /// Nothing came so far.
    pub(crate) fn none() -> Opening
        ensures { result ≡ no_opening }
    {
        Opening {
            number: None,
            unopened: [0; REASONS],
        }
    }

    /// The same after a packet opened under the key with this number, or came from a peer that is not sealed.
    pub(crate) fn opened(&self, number: Option<u32>) -> Opening
        ensures { result ≡ opening_with number self.now }
    {
        Opening {
            number,
            unopened: self.unopened,
        }
    }

    /// The same after a packet did not open.
    pub(crate) fn refused(&self, fault: SealFault) -> Opening
        ensures { result ≡ opening_without fault self.now }
    {
        Opening {
            number: self.number,
            unopened: counted(self.unopened, fault),
        }
    }
}

//! The rule by which the seats of a sequencer share its word, which is 0 or one more than the last stamp. The steps are
//! atomic: a load, and a compare and exchange.

use crate::requests::StampRequest;
use crate::stampings::View;
use atomic_table::{Join, Play, Split, TableRule};

/// Each stamp is the least that may be given after those before it, and each seat knows a beginning of them.
pub(crate) struct InTurn;

impl TableRule<StampRequest, View, u64> for InTurn {
    ghost use Rattle.std.specs.Prelude.{[]};
    ghost use Rattle.std.specs.List.{range_with_len};
    ghost use Rattle.tt_stamp.specs.Sequencing.{IsKept, view_of};

    ghost holds = { λ seats s. IsKept seats s.words s.views };

    ghost first = { λ seats. view_of seats (range_with_len 0 seats) [] };
}

/// What a seat learns by a load.
pub(crate) struct Look;

impl Play<StampRequest, View> for Look {
    ghost use Rattle.tt_stamp.specs.Sequencing.{TellsLook};

    ghost then = { TellsLook };
}

/// What a seat learns by a compare and exchange.
pub(crate) struct Try;

impl Play<StampRequest, View> for Try {
    ghost use Rattle.tt_stamp.specs.Sequencing.{TellsTry};

    ghost then = { TellsTry };
}

/// How a new seat gets the first number of another.
pub(crate) struct Deal;

impl Split<View> for Deal {
    ghost use Rattle.tt_stamp.specs.Sequencing.{dealt_left, dealt_right};

    ghost left = { dealt_left };

    ghost right = { dealt_right };
}

/// How two seats become one.
pub(crate) struct Meet;

impl Join<View> for Meet {
    ghost use Rattle.tt_stamp.specs.Sequencing.{joined_view, spent_view};

    ghost both = { joined_view };

    ghost spent = { spent_view };
}

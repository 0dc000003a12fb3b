//! One turn of a master over a reference that states intervals.

ghost use Rattle.std.specs.Prelude.{◌≡◌, Ok, OnOk, OnErr};
ghost use Rattle.tt_stream.specs.Counts.{HasFailed};
ghost use Rattle.tt_poll.specs.declared.format.Format.TheVariants.{Ttp1, Ttp2};
ghost use Rattle.tt_answers.specs.Turns.{TakesTurn, AnswersPacket, SendsAnswer};

use tt_master::{NoAnswer, SpanMaster, SpanReference};
use tt_poll::Format;
use tt_rounds::{Link, LinkFault, PACKET_LEN};
use tt_span::Span;

/// What came of a turn.
#[derive(Clone, Copy, PartialEq, Eq)]
pub enum Turn {
    /// Nothing came.
    Nothing,
    /// A request came, and was answered with this span.
    Answered(Span),
    /// A packet came, and was not answered for this reason. Nothing was sent.
    Unanswered(NoAnswer),
}

/// Receives once, and answers the packet that came, if one came. The answer goes to the peer that the packet came from,
/// and to no other. A packet that begins with `TTP2` is answered by [`SpanMaster::answer2`], any other by
/// [`SpanMaster::answer`].
///
/// A packet that is no request to this master, and a reference that states no interval, are no fault: the turn is
/// `Unanswered`, and nothing is sent. Refuses with 1501 `Failed` if the link failed: where it did so while it received,
/// the master is as it was; where it did so while it sent, the reference was read.
pub fn answer_turn<L: Link, R: SpanReference>(
    link: &mut L,
    master: &mut SpanMaster<R>,
) -> Result<Turn, LinkFault>
    ensures course { TakesTurn R.gives L.does link.old master.old result link.new master.new }
    ensures sound { OnOk result (L.failed link.new ≡ L.failed link.old) }
    ensures cause { OnErr result (HasFailed (L.failed link.old) (L.failed link.new)) }
{
    let mut buffer = [0; PACKET_LEN];
    let Some((peer, length)) = link.receive(&mut buffer)? else {
        return Ok(Turn::Nothing);
    };
    let bytes = &buffer[..length];
    match Format::of(bytes) {
        Format::Ttp1 => answer(link, master, peer, bytes),
        Format::Ttp2 => answer2(link, master, peer, bytes),
    }
}

/// Answers a packet of TTP1 that came from this peer.
fn answer<L: Link, R: SpanReference>(
    link: &mut L,
    master: &mut SpanMaster<R>,
    peer: u8,
    bytes: &[u8],
) -> Result<Turn, LinkFault>
    ensures course { AnswersPacket R.gives L.does Ttp1 peer bytes.now link.old master.old result link.new master.new }
    ensures sound { OnOk result (L.failed link.new ≡ L.failed link.old) }
    ensures cause { OnErr result (HasFailed (L.failed link.old) (L.failed link.new)) }
{
    match master.answer(bytes) {
        Ok(answered) => {
            let (span, packet) = answered;
            send(link, peer, span, &packet)
        }
        Err(why) => Ok(Turn::Unanswered(why)),
    }
}

/// The same for TTP2.
fn answer2<L: Link, R: SpanReference>(
    link: &mut L,
    master: &mut SpanMaster<R>,
    peer: u8,
    bytes: &[u8],
) -> Result<Turn, LinkFault>
    ensures course { AnswersPacket R.gives L.does Ttp2 peer bytes.now link.old master.old result link.new master.new }
    ensures sound { OnOk result (L.failed link.new ≡ L.failed link.old) }
    ensures cause { OnErr result (HasFailed (L.failed link.old) (L.failed link.new)) }
{
    match master.answer2(bytes) {
        Ok(answered) => {
            let (span, packet) = answered;
            send(link, peer, span, &packet)
        }
        Err(why) => Ok(Turn::Unanswered(why)),
    }
}

/// Sends the packet that answers this span.
fn send<L: Link>(link: &mut L, peer: u8, span: Span, packet: &[u8]) -> Result<Turn, LinkFault>
    ensures sends { SendsAnswer L.does peer (Ok (span, packet.now)) link.old result link.new }
    ensures sound { OnOk result (L.failed link.new ≡ L.failed link.old) }
    ensures cause { OnErr result (HasFailed (L.failed link.old) (L.failed link.new)) }
{
    link.send(peer, packet)?;
    Ok(Turn::Answered(span))
}

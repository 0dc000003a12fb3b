//! A master's turns: it receives requests and answers them.

ghost use Rattle.std.specs.Prelude.{◌≡◌, ◌<◌, ◌≤◌, length, Ok, Some, IfOk, IfErr};
ghost use Rattle.tt_poll.specs.declared.format.Format.TheVariants.{Ttp1, Ttp2};
ghost use Rattle.tt_rounds.specs.Counting.{FailsBy};
ghost use Rattle.tt_rounds.specs.Fault.{IsTurnsFault};
ghost use Rattle.tt_rounds.specs.Turns.{DoesTurns, TakesTurn, Plays, SendsPlayed, act_at, counted};

use crate::faults::NodeFault;
use crate::links::{Link, PACKET_LEN};
use crate::rounds::receive;
use tt_master::{Act, Master, MasterFault, Reference};
use tt_poll::Format;

/// Receives `turns` times, and does one act for each request that comes: the first act for the first request, and so
/// on. The last act is done for all further requests too. What an act sends goes to the peer that the request came
/// from. Answers for how many requests an act was done.
///
/// [`Master::play2`] does the act for a packet that begins with `TTP2`, and [`Master::play`] for any other packet. If
/// the master rejects a packet with 301, 302 or 303, no act is done for it. Requires: there is an act.
///
/// Refuses with 1501 `LinkFailed` if the link failed, and with 304 `ReferenceFailed` if the master's reference failed.
/// Then the turns end, and the call may be made again.
pub fn master_rounds<L: Link, R: Reference>(
    link: &mut L,
    master: &mut Master<R>,
    acts: &[Act],
    turns: u32,
) -> Result<u32, NodeFault>
    requires some_act { 0 < length acts.now }
    // The call did the course of the turns: which act was played for which packet, and what was sent.
    ensures course { DoesTurns R.gives L.does acts.now turns link.old master.old result link.new master.new }
    ensures few { IfOk result (λ played. played ≤ turns) }
    ensures fault { IfErr result IsTurnsFault }
    // A fault of a device is answered exactly if this device failed.
    ensures link_fails { FailsBy result NodeFault.LinkFailed (L.failed link.old) (L.failed link.new) }
    ensures reference_fails { FailsBy result NodeFault.ReferenceFailed (R.failed master.old.reference) (R.failed master.new.reference) }
{
    let mut played = 0;
    for _ in 0..turns {
        played = count_act(played, master_turn(link, master, act_for(acts, played))?);
    }
    Ok(played)
}

/// The act for the next request, after `played` acts were done.
fn act_for(acts: &[Act], played: u32) -> Act
    requires some_act { 0 < length acts.now }
    ensures { result ≡ act_at acts.now played }
{
    acts[(played as usize).min(acts.len() - 1)]
}

/// How many acts are done after one more turn.
fn count_act(played: u32, did: bool) -> u32
    requires room { played < 4294967295 }
    ensures { result ≡ counted played did }
{
    if did { played + 1 } else { played }
}

/// Makes one turn. Answers whether a request came and the act was done for it.
fn master_turn<L: Link, R: Reference>(
    link: &mut L,
    master: &mut Master<R>,
    act: Act,
) -> Result<bool, NodeFault>
    ensures fault { IfErr result IsTurnsFault }
    ensures course { TakesTurn R.gives L.does act link.old master.old result link.new master.new }
    ensures link_fails { FailsBy result NodeFault.LinkFailed (L.failed link.old) (L.failed link.new) }
    ensures reference_fails { FailsBy result NodeFault.ReferenceFailed (R.failed master.old.reference) (R.failed master.new.reference) }
{
    let mut buffer = [0; PACKET_LEN];
    let Some((peer, length)) = receive(link, &mut buffer)? else {
        return Ok(false);
    };
    let bytes = &buffer[..length];
    match Format::of(bytes) {
        Format::Ttp1 => answer(link, master, act, peer, bytes),
        Format::Ttp2 => answer2(link, master, act, peer, bytes),
    }
}

/// Does the act for a packet of TTP1, and sends what it gives.
fn answer<L: Link, R: Reference>(
    link: &mut L,
    master: &mut Master<R>,
    act: Act,
    peer: u8,
    bytes: &[u8],
) -> Result<bool, NodeFault>
    ensures fault { IfErr result IsTurnsFault }
    ensures course { Plays R.gives L.does Ttp1 act peer bytes.now link.old master.old result link.new master.new }
    ensures link_fails { FailsBy result NodeFault.LinkFailed (L.failed link.old) (L.failed link.new) }
    ensures reference_fails { FailsBy result NodeFault.ReferenceFailed (R.failed master.old.reference) (R.failed master.new.reference) }
{
    match master.play(act, bytes) {
        Ok(Some(packet)) => send(link, peer, &packet),
        Ok(None) => Ok(true),
        Err(MasterFault::Reference) => Err(NodeFault::ReferenceFailed),
        Err(_) => Ok(false),
    }
}

/// The same for TTP2.
fn answer2<L: Link, R: Reference>(
    link: &mut L,
    master: &mut Master<R>,
    act: Act,
    peer: u8,
    bytes: &[u8],
) -> Result<bool, NodeFault>
    ensures fault { IfErr result IsTurnsFault }
    ensures course { Plays R.gives L.does Ttp2 act peer bytes.now link.old master.old result link.new master.new }
    ensures link_fails { FailsBy result NodeFault.LinkFailed (L.failed link.old) (L.failed link.new) }
    ensures reference_fails { FailsBy result NodeFault.ReferenceFailed (R.failed master.old.reference) (R.failed master.new.reference) }
{
    match master.play2(act, bytes) {
        Ok(Some(packet)) => send(link, peer, &packet),
        Ok(None) => Ok(true),
        Err(MasterFault::Reference) => Err(NodeFault::ReferenceFailed),
        Err(_) => Ok(false),
    }
}

/// Sends a packet, and answers yes.
fn send<L: Link>(link: &mut L, peer: u8, packet: &[u8]) -> Result<bool, NodeFault>
    ensures sends { SendsPlayed L.does peer (Ok (Some packet.now)) link.old result link.new }
    ensures fault { IfErr result (λ fault. fault ≡ NodeFault.LinkFailed) }
    ensures link_fails { FailsBy result NodeFault.LinkFailed (L.failed link.old) (L.failed link.new) }
{
    match link.send(peer, packet) {
        Ok(()) => Ok(true),
        Err(_) => Err(NodeFault::LinkFailed),
    }
}

//! What is kept of packets in transit.

ghost use Rattle.std.specs.Prelude.{◌≡◌, slice_get};
ghost use Rattle.tt_audit.specs.Watch.{carried_by, tick_of as tick_in, taken_in};

use tt_world::{Action, Reply};

/// A packet in transit between a machine and a source, and whether it lies: its bytes were made up, or its span does
/// not hold the true time at which it was sent.
#[derive(Clone, Copy)]
pub struct Carried {
    pub machine: u8,
    pub source: u8,
    pub is_lie: bool,
}

/// A machine, and what its clock shows, in nanoseconds.
#[derive(Clone, Copy)]
pub struct Tick {
    pub machine: u8,
    pub clock: u64,
}

/// The packet of this number, if it was put.
fn packet_at(carried: &[Carried], packet: u64) -> Option<Carried>
    ensures { result ≡ slice_get carried.now packet }
{
    let place = usize::try_from(packet).ok()?;
    carried.get(place).copied()
}

/// The packet that an action puts at this true time, if it puts one.
pub fn put_by(carried: &[Carried], at: u64, action: &Action) -> Option<Carried>
    ensures { result ≡ carried_by carried.now at action.now }
{
    match action {
        Action::Send {
            machine,
            source,
            ..
        } => Some(Carried {
            machine: *machine,
            source: *source,
            is_lie: false,
        }),
        Action::Answer { packet, span } => {
            let asked = packet_at(carried, *packet)?;
            Some(Carried {
                machine: asked.machine,
                source: asked.source,
                is_lie: !(span.lo() <= at && at <= span.hi()),
            })
        }
        Action::Forge {
            machine,
            source,
            ..
        } => Some(Carried {
            machine: *machine,
            source: *source,
            is_lie: true,
        }),
        _ => None,
    }
}

/// The clock reading that an action has, with its machine, if it has one.
pub fn tick_of(carried: &[Carried], action: &Action) -> Option<Tick>
    ensures { result ≡ tick_in carried.now action.now }
{
    match action {
        Action::Send { machine, clock, .. }
        | Action::Fuse { machine, clock }
        | Action::Read { machine, clock, .. }
        | Action::Restart { machine, clock } => Some(Tick {
            machine: *machine,
            clock: *clock,
        }),
        Action::Deliver { packet, clock } => {
            let delivered = packet_at(carried, *packet)?;
            Some(Tick {
                machine: delivered.machine,
                clock: *clock,
            })
        }
        _ => None,
    }
}

/// The packet that an action delivers, if that is taken.
pub fn taken_by(carried: &[Carried], action: &Action, reply: &Reply) -> Option<Carried>
    ensures { result ≡ taken_in carried.now action.now reply.now }
{
    match (action, reply) {
        (Action::Deliver { packet, .. }, Reply::Taken) => packet_at(carried, *packet),
        _ => None,
    }
}

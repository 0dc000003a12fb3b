//! A whole run, event by event.

ghost use Rattle.std.specs.Prelude.{◌≡◌, ℕ, ◌+◌, ◌<◌, ◌≤◌, slice_get, List, [], ◌∷◌, length, map, ◌↔◌, ◌⊎◌, ◌-◌, ◌^◌, IfOk, IfErr, OnOk, OnErr, IsErrOf, None};
ghost use Rattle.tt_daemon.specs.Config.{Configuration};
ghost use Rattle.tt_world.specs.Config.{max_machines};
ghost use Rattle.tt_world.specs.declared.events.Event.{Event};
ghost use Rattle.tt_world.specs.declared.events.Reply.{Reply};
ghost use Rattle.tt_world.specs.Headline.{AreConfigurations, CertificatesProve};
ghost use Rattle.tt_world.specs.Trace.{outline};
ghost use Rattle.tt_world.specs.Bad.{accepted};
ghost use Rattle.tt_world.specs.Reply.{reply_of, TakesMemory};
ghost use Rattle.tt_world.specs.State.{WorldState, StandsFor, knows};
ghost use Rattle.tt_world.specs.Packet.{answer_to};
ghost use Rattle.tt_world.specs.Private.Step.{Does, WantsMemory, HasRoom, send_on, answer_on, forge_on, deliver_on, fuse_on, on_machine, event_outcome};

use crate::events::{Action, Event, Payload, Reply};
use crate::faults::WorldFault;
use crate::machine_actions::{MachineAction, WorkerAction};
use crate::machines::Machine;
use crate::packets::Packet;
use crate::publications::Shown;
use crate::workers::Arrival;
use std::alloc::Global;
use std::marker::Model;
use tt_daemon::Config;
use tt_poll::Request2;
use tt_span::{MAX_TIME, Span};

/// The most machines of a run.
pub const MAX_MACHINES: usize = 8;

/// A run of up to eight machines after the events so far: the last true time, the packets that were sent, the machines,
/// and what they have published.
#[derive(Drop)]
pub struct World {
    alloc: Global,
    time: u64,
    packets: Vec<Packet>,
    machines: Vec<Machine>,
    shown: Vec<Shown>,
}

impl Model for World {
    ghost use Rattle.std.specs.Prelude.{map};
    ghost use Rattle.tt_world.specs.State.{WorldState, IsWorld};
    ghost use Rattle.tt_world.specs.Trace.{outline};
    ghost use Rattle.tt_world.specs.Headline.{CertificatesProve};

    ghost Value = { WorldState };

    ghost view = { λ w. record { time = w.time; packets = w.packets.items; machines = w.machines.items; shown = map outline w.shown.items } };

    ghost invariant = { λ w. IsWorld (record { time = w.time; packets = w.packets.items; machines = w.machines.items; shown = map outline w.shown.items })
        × CertificatesProve w.shown.items };
}

impl World {
    /// A machine polls a source.
    fn send(&mut self, at: u64, machine: u8, source: u8, clock: u64) -> Result<Reply, WorldFault>
        ensures does { Does (λ _. Unit {0}) (send_on self.old at machine source clock (slice_get self.old.machines machine)) self.old result self.new }
        ensures room { OnOk result (length self.old.packets < 2 ^ 64 - 1) }
    {
        let place = usize::from(machine);
        if place >= self.machines.len() {
            return Err(WorldFault::UnknownNumber);
        }
        if usize::from(source) >= self.machines[place].config().sources() {
            return Err(WorldFault::UnknownNumber);
        }
        if self.machines[place].is_back(clock) {
            return Err(WorldFault::ClockBack);
        }
        self.packets.reserve(1)?;
        let number = self.packets.len() as u64;
        self.time = at;
        match self.machines[place].poll(source, clock) {
            Ok((nonce, life)) => {
                let request = Request2::new(machine, source, nonce, life).unwrap();
                self.packets.push(Packet::Asked(request)).unwrap();
                Ok(Reply::Sent(number))
            }
            Err(fault) => Ok(Reply::Refused(fault.number())),
        }
    }

    /// A source sends bytes that it made up.
    fn forge(
        &mut self,
        at: u64,
        machine: u8,
        source: u8,
        payload: &Payload,
    ) -> Result<Reply, WorldFault>
        ensures { Does TakesMemory (forge_on self.old at machine source payload.now (slice_get self.old.machines machine)) self.old result self.new }
    {
        let place = usize::from(machine);
        if place >= self.machines.len() {
            return Err(WorldFault::UnknownNumber);
        }
        if usize::from(source) >= self.machines[place].config().sources() {
            return Err(WorldFault::UnknownNumber);
        }
        let number = self.packets.len() as u64;
        let payload = payload.clone()?;
        self.packets.push(Packet::Forged {
            machine,
            source,
            payload,
        })?;
        self.time = at;
        Ok(Reply::Put(number))
    }

    /// A machine fuses what it knows, and publishes it.
    fn fuse(&mut self, at: u64, machine: u8, clock: u64) -> Result<Reply, WorldFault>
        ensures { Does TakesMemory (fuse_on self.old at machine clock (slice_get self.old.machines machine)) self.old result self.new }
    {
        let place = usize::from(machine);
        if place >= self.machines.len() {
            return Err(WorldFault::UnknownNumber);
        }
        if self.machines[place].is_back(clock) {
            return Err(WorldFault::ClockBack);
        }
        let reply = self.machines[place].fuse(machine, clock, &mut self.shown)?;
        self.time = at;
        Ok(reply)
    }

    /// A machine does what it is asked.
    fn on_machine(
        &mut self,
        at: u64,
        machine: u8,
        machine_action: MachineAction,
    ) -> Result<Reply, WorldFault>
        ensures { Does TakesMemory (on_machine self.old at machine machine_action (slice_get self.old.machines machine)) self.old result self.new }
    {
        let place = usize::from(machine);
        if place >= self.machines.len() {
            return Err(WorldFault::UnknownNumber);
        }
        let reply = self.machines[place].act(self.alloc, machine, machine_action)?;
        self.time = at;
        Ok(reply)
    }

    /// The source answers a request that asks it.
    fn answer(&mut self, at: u64, packet: u64, span: Span) -> Result<Reply, WorldFault>
        ensures { Does TakesMemory (answer_on self.old at (answer_to (slice_get self.old.packets packet) span)) self.old result self.new }
    {
        let Some(Packet::Asked(request)) = self.packets.get(packet as usize) else {
            return Err(WorldFault::NoPacket);
        };
        let answer = request.answered(span);
        let number = self.packets.len() as u64;
        self.packets.push(Packet::Answered(answer))?;
        self.time = at;
        Ok(Reply::Put(number))
    }

    /// A packet that is not a request reaches its machine.
    fn deliver(&mut self, at: u64, packet: u64, clock: u64) -> Result<Reply, WorldFault>
        ensures { Does TakesMemory (deliver_on self.old at clock (slice_get self.old.packets packet)) self.old result self.new }
    {
        let Some(found) = self.packets.get(packet as usize) else {
            return Err(WorldFault::NoPacket);
        };
        if found.is_request() {
            return Err(WorldFault::NoPacket);
        }
        let place = usize::from(found.machine());
        if place >= self.machines.len() {
            return Err(WorldFault::NoPacket);
        }
        if self.machines[place].is_back(clock) {
            return Err(WorldFault::ClockBack);
        }
        let reply = self.machines[place].take_packet(clock, found);
        self.time = at;
        Ok(reply)
    }

    /// Does what an event says, or answers why it is bad.
    fn act(&mut self, event: &Event) -> Result<Reply, WorldFault>
        ensures does { Does (WantsMemory event.now.action) (event_outcome self.old event.now) self.old result self.new }
        ensures room { OnOk result (HasRoom self.old event.now.action) }
    {
        let at = event.at;
        if at < self.time || at > MAX_TIME {
            return Err(WorldFault::TimeBack);
        }
        match &event.action {
            Action::Send {
                machine,
                source,
                clock,
            } => self.send(at, *machine, *source, *clock),
            Action::Answer { packet, span } => self.answer(at, *packet, *span),
            Action::Forge {
                machine,
                source,
                payload,
            } => self.forge(at, *machine, *source, payload),
            Action::Deliver { packet, clock } => self.deliver(at, *packet, *clock),
            Action::Fuse { machine, clock } => self.fuse(at, *machine, *clock),
            Action::Read {
                machine,
                worker,
                clock,
                publication,
            } => {
                let work = WorkerAction::Read {
                    clock: *clock,
                    publication: *publication,
                };
                self.on_machine(at, *machine, MachineAction::Work(*worker, work))
            }
            Action::Arrive {
                machine,
                worker,
                id,
                floor,
            } => {
                let arrival = Arrival {
                    id: *id,
                    floor: *floor,
                };
                self.on_machine(
                    at,
                    *machine,
                    MachineAction::Work(*worker, WorkerAction::Arrive(arrival)),
                )
            }
            Action::Stamp { machine, worker } => {
                self.on_machine(
                    at,
                    *machine,
                    MachineAction::Work(*worker, WorkerAction::Stamp),
                )
            }
            Action::Queue { machine, worker } => {
                self.on_machine(
                    at,
                    *machine,
                    MachineAction::Work(*worker, WorkerAction::Queue),
                )
            }
            Action::Restart { machine, clock } => {
                self.on_machine(at, *machine, MachineAction::Restart(*clock))
            }
            Action::Lease { machine, lease } => {
                self.on_machine(at, *machine, MachineAction::Lease(*lease))
            }
            Action::Release { machine, worker } => {
                self.on_machine(
                    at,
                    *machine,
                    MachineAction::Work(*worker, WorkerAction::Release),
                )
            }
        }
    }

    /// The world of these machines, before anything has happened. Refuses with 1207 `Machines` if there is no machine,
    /// or more than [`MAX_MACHINES`], and with 1 `Memory` if it is out of memory.
    pub fn new(alloc: Global, configs: &[Config]) -> Result<World, WorldFault>
        ensures stands { IfOk result (λ world. StandsFor configs.now [] world) }
        ensures valid { IfOk result (λ _. AreConfigurations configs.now) }
        ensures machines { IsErrOf result WorldFault.Machines ↔ ((length configs.now ≡ 0) ⊎ (max_machines < length configs.now)) }
        ensures refused { IfErr result (λ e. (e ≡ WorldFault.Machines) ⊎ (e ≡ WorldFault.Memory)) }
    {
        if configs.is_empty() || configs.len() > MAX_MACHINES {
            return Err(WorldFault::Machines);
        }
        let mut machines = Vec::with_capacity(alloc, configs.len())?;
        for (number, config) in configs.iter().enumerate() {
            machines.push(Machine::new(alloc, number as u8, *config))?;
        }
        Ok(World {
            alloc,
            time: 0,
            packets: Vec::new(alloc),
            machines,
            shown: Vec::new(alloc),
        })
    }

    /// Does what an event says, and answers the reply to it. Every event is taken.
    ///
    /// A bad event changes nothing. The reply to it is the first number that applies of 1201 `TimeBack`, 1206
    /// `UnknownNumber`, 1203 `NoPacket`, 1202 `ClockBack`, 1204 `NoPublication`, 1205 `NothingThere` and 1208
    /// `LivesUsedUp`. If the reply is the number of a lower crate, only the true time moves and, if the event reads it,
    /// the machine's clock. Refuses with 1 `Memory` if it is out of memory, and never for a bad event; the world is
    /// then as before.
    pub fn step(&mut self, event: &Event) -> Result<Reply, WorldFault>
        // For every run that the world stands for, this is the next reply, and the world then stands for the longer
        // run.
        ensures reply { IfOk result (λ reply. (configs : List Configuration) (past : List Event) → StandsFor configs past self.old →
            (reply ≡ reply_of configs past event.now) × StandsFor configs (event.now ∷ past) self.new) }
        ensures memory { IfErr result (λ e. e ≡ WorldFault.Memory) }
        // Memory is taken only if the reply would be that something was sent, put, published, queued or released. So an
        // event that is refused gets its number also when no memory is left.
        ensures memory_only { OnErr result ((configs : List Configuration) (past : List Event) → StandsFor configs past self.old →
            TakesMemory (reply_of configs past event.now)) }
        ensures unchanged { OnErr result (self.new ≡ self.old) }
    {
        match self.act(event) {
            Ok(reply) => Ok(reply),
            Err(fault) => fault.as_reply(),
        }
    }

    /// Whether the source has made a statement to the machine: the machine has taken an answer from it. False if there
    /// is no such machine, or if it has no such source. It takes no memory.
    pub fn is_known(&self, machine: u8, source: u8) -> bool
        ensures value { (configs : List Configuration) (past : List Event) → StandsFor configs past self.now →
            result ≡ knows configs (accepted configs past) machine source }
    {
        let place = usize::from(machine);
        place < self.machines.len() && self.machines[place].is_known(source)
    }

    /// What was published, in the order of the events.
    pub(crate) fn into_shown(self) -> Vec<Shown>
        ensures value { map outline result.items ≡ self.shown }
        ensures certified { CertificatesProve result.items }
    {
        self.shown
    }
}

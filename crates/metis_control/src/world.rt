//! The controller, the agents and the net between them.
ghost use Rattle.std.specs.Prelude.{◌≡◌, ◌<◌, ◌-◌, ◌^◌, IfOk, IfSome, is_some, length, map, not};
ghost use Rattle.metis_universe.specs.Terms.{IsKept, is_empty, numbers, waits};
ghost use Rattle.metis_waits.specs.Terms.{AreWaits};
ghost use Rattle.metis_crew.specs.Terms.{count_of, own_numbers};
ghost use Rattle.metis_control.specs.Terms.{IsHeard, at_first, delivered, hear, ordered, packet_at, restarted};

use crate::agent::Agent;
use crate::agents::{agents_of, execute};
use crate::controller::Controller;
use crate::happening::{Happening, Leave, Packet, Told};
use metis_ids::{Action, InstNo, NoMemory};
use metis_waits::Waits;
use std::alloc::Global;
use std::collections::BTreeMap;
use std::marker::Model;

/// A controller, an agent for each actor, and all packets that were ever added.
/// Contracts see the actions and the state of the world machine.
#[derive(Drop)]
pub struct World<'a> {
    actions: &'a [Action],
    controller: Controller<'a>,
    agents: BTreeMap<InstNo, Agent>,
    packets: Vec<Packet>,
    ran: Vec<u32>,
}

impl<'a> Model for World<'a> {
    ghost use Rattle.metis_control.specs.Fields.{IsWorld, WorldValue, state_of};

    ghost Value = { WorldValue };

    ghost view = { λ w. record { actions = w.actions.now; state = state_of w.packets.items w.controller.acked w.agents.entries w.ran.items } };

    ghost invariant = { λ w. IsWorld w.actions.now w.controller.each w.agents.entries (state_of w.packets.items w.controller.acked w.agents.entries w.ran.items) };
}

impl<'a> World<'a> {
    /// Nothing is sent and nothing is done.
    pub fn new(alloc: Global, actions: &'a [Action], w: &'a Waits) -> Result<World<'a>, NoMemory>
        requires { AreWaits actions.now w.now }
        ensures { IfOk result (λ world. world ≡ record { actions = actions.now; state = at_first actions.now }) }
    {
        // For the proof alone: the lists of the waits are fewer than 2^32.
        let _count = w.count();
        Ok(World {
            actions,
            controller: Controller::new(alloc, actions, w)?,
            agents: agents_of(alloc, actions)?,
            packets: Vec::new(alloc),
            ran: Vec::new(alloc),
        })
    }

    /// What happens next. Where there is no memory left for a packet or an acknowledgement that is to be added, nothing changes.
    pub fn event(&mut self, e: Happening) -> Told
        requires { length self.old.state.packets < 2 ^ 32 - 2 }
        ensures actions { self.new.actions ≡ self.old.actions }
        ensures heard { IsHeard result self.old.state (hear self.old.actions self.old.state e) self.new.state }
    {
        match e {
            Happening::Order(k) => self.order(k),
            Happening::Deliver(n) => self.deliver(n),
            Happening::Restart(n) => self.restart(n),
        }
    }

    // The controller is to order the action.
    fn order(&mut self, k: u32) -> Told
        requires { length self.old.state.packets < 2 ^ 32 - 2 }
        ensures actions { self.new.actions ≡ self.old.actions }
        ensures heard { IsHeard result self.old.state (ordered self.old.actions self.old.state k) self.new.state }
    {
        match self.controller.leave(k) {
            Leave::NoAction => Told::NoAction(k),
            Leave::Acked => Told::Acked(k),
            Leave::Held(m) => Told::Held(k, m),
            Leave::Send => {
                let number = self.packets.len() as u32 + 1;
                match self.packets.push(Packet::Order(k)) {
                    Ok(()) => Told::Sent(number),
                    Err(_) => Told::NoMemory,
                }
            }
        }
    }

    // The packet arrives.
    fn deliver(&mut self, n: u32) -> Told
        requires { length self.old.state.packets < 2 ^ 32 - 2 }
        ensures actions { self.new.actions ≡ self.old.actions }
        ensures heard { IsHeard result self.old.state (delivered self.old.actions self.old.state n) self.new.state }
    {
        match packet(&self.packets, n) {
            None => Told::NoPacket(n),
            Some(Packet::Order(k)) => execute(
                self.actions,
                &mut self.agents,
                &mut self.packets,
                &mut self.ran,
                k,
            ),
            Some(Packet::Ack(k)) => match self.controller.note(k) {
                Ok(true) => Told::Noted(k),
                Ok(false) => Told::Known(k),
                Err(NoMemory) => Told::NoMemory,
            },
        }
    }

    // The controller restarts.
    fn restart(&mut self, n: u32) -> Told
        ensures actions { self.new.actions ≡ self.old.actions }
        ensures heard { IsHeard result self.old.state (restarted self.old.state n) self.new.state }
    {
        if self.controller.restart(n) {
            Told::Restarted(n)
        } else {
            Told::NoRestart(n)
        }
    }

    /// How many packets were added.
    pub fn packets(&self) -> usize
        ensures { result ≡ length self.now.state.packets }
    {
        self.packets.len()
    }

    /// The actions that were executed, in their order.
    pub fn ran(&self) -> &[u32]
        ensures value { result.now ≡ self.now.state.ran }
        ensures kept { IsKept self.now.actions result.now }
    {
        self.ran.as_slice()
    }

    /// The acknowledgements, in their order.
    pub fn acknowledged(&self) -> &[u32]
        ensures { result.now ≡ self.now.state.acked }
    {
        self.controller.acknowledged()
    }

    /// The agent of the instance, where some action is its own.
    pub fn agent(&self, z: InstNo) -> Option<&Agent>
        ensures exists { is_some result ≡ not (is_empty (own_numbers self.now.actions z)) }
        ensures own { IfSome result (λ agent. agent.now.own ≡ own_numbers self.now.actions z) }
        ensures done { IfSome result (λ agent. agent.now.done ≡ count_of self.now.state.counts z) }
    {
        self.agents.get(&z)
    }

    /// The controller. It knows what each action waits for.
    pub fn controller(&self) -> &Controller<'a>
        ensures waits { result.now.each ≡ map (waits self.now.actions) (numbers self.now.actions) }
        ensures acknowledged { result.now.acked ≡ self.now.state.acked }
    {
        &self.controller
    }
}

// Packet n. They are numbered from 1.
fn packet(packets: &[Packet], n: u32) -> Option<Packet>
    ensures { result ≡ packet_at packets.now n }
{
    if n == 0 {
        return None;
    }
    packets.get(n as usize - 1).copied()
}

//! The agents of all instances.
ghost use Rattle.std.specs.Prelude.{◌≡◌, ◌<◌, ◌-◌, ◌≤◌, ◌^◌, ◌==◌, ◌++◌, ◌∷◌, [], ℕ, List, IfOk, OnOk, IsSome, length};
ghost use Rattle.std.specs.List.Sorted.{IsStrictlySortedBy};
ghost use Rattle.std.specs.Map.{keys_of, lookup};
ghost use Rattle.std.specs.Ordering.{nat_cmp};
ghost use Rattle.metis_crew.specs.Terms.{actor_at, start};
ghost use Rattle.metis_control.specs.Terms.{AreOwned, IsAdded, IsDoneOrNext, IsHeard, IsOrdered, IsRising, agent_at, came, counts_of, state_of};
ghost use Rattle.metis_control.specs.declared.happening.Packet.TheVariants as packet;

use crate::agent::Agent;
use crate::happening::{Heard, Packet, Told};
use metis_ids::{Action, InstNo, NoMemory};
use std::alloc::Global;
use std::collections::BTreeMap;

/// The agent of each actor, with none of its actions done.
pub fn agents_of(alloc: Global, actions: &[Action]) -> Result<BTreeMap<InstNo, Agent>, NoMemory>
    requires { length actions.now < 2 ^ 32 }
    ensures counts { IfOk result (λ agents. counts_of agents.entries ≡ start actions.now) }
    ensures owned { IfOk result (λ agents. AreOwned actions.now agents.entries) }
{
    let mut agents = BTreeMap::new(alloc);
    for (index, action) in actions.iter().enumerate() {
        add(alloc, &mut agents, action.actor(), index as u32 + 1)?;
    }
    Ok(agents)
}

// The action is the instance's, behind its others. The first one goes to a new agent, which has none yet.
fn add(
    alloc: Global,
    agents: &mut BTreeMap<InstNo, Agent>,
    z: InstNo,
    number: u32,
) -> Result<(), NoMemory>
    requires rising { IsRising 0 ((agent_at agents.old.entries z).own ++ number ∷ []) }
    requires few { length (agent_at agents.old.entries z).own < 2 ^ 32 - 1 }
    ensures { OnOk result (IsAdded agents.old.entries z number agents.new.entries) }
{
    if let Some(agent) = agents.get_mut(&z) {
        return agent.take_on(number);
    }
    let mut agent = Agent::new(alloc, z, &[])?;
    agent.take_on(number)?;
    agents.insert(z, agent)?;
    Ok(())
}

// The order of action k at the agent of instance z.
fn order_at(agents: &mut BTreeMap<InstNo, Agent>, z: InstNo, k: u32) -> Heard
    requires { IsSome (lookup (λ y. z == y) agents.old.entries) }
    ensures answer { IsOrdered agents.old.entries z k result agents.new.entries }
    ensures ordered { IsStrictlySortedBy nat_cmp (keys_of agents.old.entries) }
{
    match agents.get_mut(&z) {
        Some(agent) => agent.on_order(k),
        None => Heard::NotMine,
    }
}

// The instance that does action k.
fn actor(actions: &[Action], k: u32) -> InstNo
    requires first { 1 ≤ k }
    requires last { k ≤ length actions.now }
    ensures { result ≡ actor_at actions.now k }
{
    actions[k as usize - 1].actor()
}

/// The order of action k arrives at its actor's agent, which acknowledges it. Room for all that is added is taken first.
pub fn execute(
    actions: &[Action],
    agents: &mut BTreeMap<InstNo, Agent>,
    packets: &mut Vec<Packet>,
    ran: &mut Vec<u32>,
    k: u32,
) -> Told
    requires first { 1 ≤ k }
    requires last { k ≤ length actions.now }
    requires owned { AreOwned actions.now agents.old.entries }
    requires order { IsDoneOrNext actions.now (counts_of agents.old.entries) k }
    requires few { length packets.old.items < 2 ^ 32 - 2 }
    ensures owned { AreOwned actions.now agents.new.entries }
    ensures heard { (acked : List ℕ) → let old = state_of packets.old.items acked agents.old.entries ran.old.items in
        IsHeard result old (came actions.now old (packet.Order k)) (state_of packets.new.items acked agents.new.entries ran.new.items) }
{
    let Ok(()) = packets.reserve(1) else {
        return Told::NoMemory;
    };
    let Ok(()) = ran.reserve(1) else {
        return Told::NoMemory;
    };
    let number = packets.len() as u32 + 1;
    match order_at(agents, actor(actions, k), k) {
        Heard::Executed => {
            ran.push_reserved(k);
            packets.push_reserved(Packet::Ack(k));
            Told::Executed(k, number)
        }
        Heard::Again => {
            packets.push_reserved(Packet::Ack(k));
            Told::Again(k, number)
        }
        Heard::Ahead(_) | Heard::NotMine => unreachable!(),
    }
}

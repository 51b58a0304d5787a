//! What is known of each instance.
ghost use Rattle.std.specs.Prelude.{◌≡◌, ◌<◌, ◌==◌, ◌∷◌, ◌++◌, [], ℕ, IfOk, OnOk, if◌then◌else◌};
ghost use Rattle.metis_waits.specs.Terms.{IsPossible, changed, idle, noted, state_at, takes_effect, without_own};

use metis_ids::{InstNo, Ix, NoMemory, PairIx, PortIx};
use std::alloc::Global;
use std::collections::{BTreeSet, HashMap};
use std::marker::Model;
use std::mem;

/// What the actions so far did to an instance. Their numbers count from 1.
#[derive(Clone, Copy)]
pub struct Track {
    /// Its last action; 0 where there is none.
    pub last: u32,
    /// Its last New or Move; 0 where there is none.
    pub entered: u32,
    /// Whether it was made.
    pub made: bool,
    /// The pair in which it is, where it is there.
    pub pair: Option<PairIx>,
    /// How many bindings to it stand.
    pub clients: u32,
}

/// What an action does to an instance.
#[derive(Clone, Copy)]
pub enum Change {
    /// It is made, in the pair.
    Made(PairIx),
    /// It moves into the pair.
    Moved(PairIx),
    /// It goes.
    Deleted,
    /// It binds the port to the provider.
    Bound(PortIx, InstNo),
    /// It takes this binding back.
    Unbound(PortIx, InstNo),
    /// A binding to it stands now.
    Gained,
    /// A binding to it was ended on the requirer's side.
    Released,
}

/// What is known of an instance. Contracts see its track, its bindings and what released it.
#[derive(Drop)]
pub struct Instance {
    pub track: Track,
    /// The bindings that it requires and that stand: their ports and providers.
    own: BTreeSet<(PortIx, InstNo)>,
    /// The actions that ended a binding to it since it came into its pair.
    releases: Vec<u32>,
}

impl Model for Instance {
    ghost use Rattle.metis_waits.specs.Instances.{InstanceState};

    ghost Value = { InstanceState };

    ghost view = { λ t. record { track = t.track; own = t.own.keys; releases = t.releases.items } };
}

impl Instance {
    /// An instance that did nothing.
    fn idle(alloc: Global) -> Instance
        ensures { result ≡ idle }
    {
        Instance {
            track: no_track(),
            own: BTreeSet::new(alloc),
            releases: Vec::new(alloc),
        }
    }

    /// The actions that ended a binding to it since it came into its pair.
    pub fn releases(&self) -> &[u32]
        ensures { result.now ≡ self.now.releases }
    {
        self.releases.as_slice()
    }

    // The action of this number does this to it. Whether the bindings are others then.
    fn apply(&mut self, number: u32, change: Change) -> Result<bool, NoMemory>
        requires { IsPossible change self.old }
        ensures state { OnOk result (self.new ≡ changed number change self.old) }
        ensures effect { IfOk result (λ b. b ≡ takes_effect change self.old) }
    {
        match change {
            Change::Made(pair) => self.enter(number, pair, true),
            Change::Moved(pair) => self.enter(number, pair, self.track.made),
            Change::Deleted => {
                self.track.last = number;
                self.track.pair = None;
            }
            Change::Bound(port, provider) => {
                self.track.last = number;
                return Ok(self.own.insert((port, provider))?);
            }
            Change::Unbound(port, provider) => {
                self.track.last = number;
                return Ok(self.own.remove(&(port, provider)));
            }
            Change::Gained => self.track.clients += 1,
            Change::Released => {
                self.track.clients -= 1;
                note(&mut self.releases, number)?;
            }
        }
        Ok(true)
    }

    // It comes into the pair, so that nothing has released it since.
    fn enter(&mut self, number: u32, pair: PairIx, made: bool)
        ensures { self.new ≡ record { track = record { last = number; entered = number; made = made; pair = Some pair; clients = self.old.track.clients }; own = self.old.own; releases = [] } }
    {
        self.track.last = number;
        self.track.entered = number;
        self.track.made = made;
        self.track.pair = Some(pair);
        self.releases.clear();
    }

    // Takes its bindings out.
    fn take_own(&mut self, alloc: Global) -> BTreeSet<(PortIx, InstNo)>
        ensures own { result.keys ≡ self.old.own }
        ensures state { self.new ≡ without_own self.old }
    {
        mem::replace(&mut self.own, BTreeSet::new(alloc))
    }
}

// Of an instance that did nothing.
fn no_track() -> Track
    ensures { result ≡ idle.track }
{
    Track {
        last: 0,
        entered: 0,
        made: false,
        pair: None,
        clients: 0,
    }
}

// Appends the number, unless it is the last one already.
fn note(numbers: &mut Vec<u32>, number: u32) -> Result<(), NoMemory>
    ensures { OnOk result (numbers.new.items ≡ noted number numbers.old.items) }
{
    let is_noted = match numbers.last() {
        Some(last) => *last == number,
        None => false,
    };
    if !is_noted {
        numbers.push(number)?;
    }
    Ok(())
}

/// What the actions so far did to the instance.
pub fn track_of(instances: &HashMap<u32, Instance>, z: InstNo) -> Track
    ensures { result ≡ (state_at instances.now.entries z).track }
{
    match instances.get(&z.number()) {
        Some(instance) => instance.track,
        None => no_track(),
    }
}

/// The action of this number does this to the instance. Whether the bindings are others then.
pub fn note_change(
    alloc: Global,
    instances: &mut HashMap<u32, Instance>,
    z: InstNo,
    number: u32,
    change: Change,
) -> Result<bool, NoMemory>
    requires { IsPossible change (state_at instances.old.entries z) }
    ensures states { OnOk result ((y : ℕ) → state_at instances.new.entries y ≡ (if z == y then changed number change (state_at instances.old.entries z) else state_at instances.old.entries y)) }
    ensures effect { IfOk result (λ b. b ≡ takes_effect change (state_at instances.old.entries z)) }
{
    if let Some(instance) = instances.get_mut(&z.number()) {
        return instance.apply(number, change);
    }
    let mut instance = Instance::idle(alloc);
    let effect = instance.apply(number, change)?;
    instances.insert(z.number(), instance)?;
    Ok(effect)
}

/// Takes the bindings of the instance out.
pub fn take_own(
    alloc: Global,
    instances: &mut HashMap<u32, Instance>,
    z: InstNo,
) -> BTreeSet<(PortIx, InstNo)>
    ensures own { result.keys ≡ (state_at instances.old.entries z).own }
    ensures states { (y : ℕ) → state_at instances.new.entries y ≡ (if z == y then without_own (state_at instances.old.entries z) else state_at instances.old.entries y) }
{
    match instances.get_mut(&z.number()) {
        Some(instance) => instance.take_own(alloc),
        None => BTreeSet::new(alloc),
    }
}

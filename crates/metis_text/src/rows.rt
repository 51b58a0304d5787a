//! The actions that were read so far.
ghost use Rattle.std.specs.Prelude.{◌≡◌, ◌++◌, ◌∷◌, IfOk, OnOk, []};
ghost use Rattle.metis_text.specs.Kinds.{AreKinds};
ghost use Rattle.metis_text.specs.PlanText.{last_kind};
ghost use Rattle.metis_text.specs.Reading.{rows_of, with_row};

use metis_ids::{Action, InstNo, NoMemory, PairIx, TypeIx};
use std::alloc::Global;
use std::collections::BTreeMap;
use std::marker::Model;

/// The actions that were read, with the list behind each.
#[derive(Drop)]
pub struct Rows {
    pub actions: Vec<Action>,
    pub after: Vec<Vec<u32>>,
    /// The type of each instance that the actions make, by its last `new`.
    kinds: BTreeMap<InstNo, TypeIx>,
    /// The pair that was moved to last, as a guess of that from which the next move starts.
    near: PairIx,
    ghost kept: { AreKinds actions.items kinds.entries },
}

impl Model for Rows {
    ghost use Rattle.std.specs.Prelude.{map};
    ghost use Rattle.metis_text.specs.Reading.{Rows, rows_of};

    ghost Value = { Rows };

    ghost view = { λ rows. rows_of rows.actions.items (map (λ ks. ks.items) rows.after.items) };
}

impl Rows {
    /// None was read.
    pub fn new(alloc: Global) -> Rows
        ensures { result ≡ rows_of [] [] }
    {
        Rows {
            actions: Vec::new(alloc),
            after: Vec::new(alloc),
            kinds: BTreeMap::new(alloc),
            near: PairIx(0),
        }
    }

    /// The type of the instance, if it was made.
    pub fn last_kind(&self, z: InstNo) -> Option<TypeIx>
        ensures { result ≡ last_kind z self.now.actions }
    {
        self.kinds.get(&z).copied()
    }

    /// The pair that was moved to last, or else the first one. It is a guess, on which nothing that is read hangs.
    pub fn near(&self) -> PairIx {
        self.near
    }

    /// The rows with one more action and its list.
    pub fn add(self, action: Action, after: Vec<u32>) -> Result<Rows, NoMemory>
        ensures { IfOk result (λ rows. rows ≡ with_row self (action, after.items)) }
    {
        let Rows {
            mut actions,
            after: mut lists,
            mut kinds,
            near,
        } = self;
        let near = near_after(&action, near);
        note_kind(&mut kinds, &actions, &action)?;
        actions.push(action)?;
        lists.push(after)?;
        Ok(Rows {
            actions,
            after: lists,
            kinds,
            near,
        })
    }
}

fn near_after(action: &Action, near: PairIx) -> PairIx {
    match *action {
        Action::Move { to, .. } => to,
        _ => near,
    }
}

// Notes the type of an instance that the action makes.
fn note_kind(
    kinds: &mut BTreeMap<InstNo, TypeIx>,
    earlier: &[Action],
    action: &Action,
) -> Result<(), NoMemory>
    requires { AreKinds earlier.now kinds.old.entries }
    ensures { OnOk result (AreKinds (earlier.now ++ action.now ∷ []) kinds.new.entries) }
{
    match *action {
        Action::New { inst, kind } => {
            kinds.insert(inst, kind)?;
        }
        Action::Delete { .. } => (),
        Action::Bind { .. } => (),
        Action::Unbind { .. } => (),
        Action::Move { .. } => (),
    }
    Ok(())
}

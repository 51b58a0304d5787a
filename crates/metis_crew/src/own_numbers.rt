//! The numbers of each instance's actions.
ghost use Rattle.std.specs.Prelude.{◌≡◌, ℕ, ◌<◌, ◌^◌, ◌==◌, ◌++◌, ◌∷◌, [], if◌then◌else◌, IfOk, OnOk, length};
ghost use Rattle.metis_crew.specs.Terms.{own_numbers, row_at};

use crate::row::Row;
use metis_ids::{Action, InstNo, NoMemory};
use std::alloc::Global;
use std::collections::BTreeMap;

/// The numbers of each instance's actions.
pub fn own_of(alloc: Global, actions: &[Action]) -> Result<BTreeMap<InstNo, Row>, NoMemory>
    requires few { length actions.now < 2 ^ 32 }
    ensures { IfOk result (λ own. (z : ℕ) → row_at own.entries z ≡ own_numbers actions.now z) }
{
    let mut own = BTreeMap::new(alloc);
    for (index, action) in actions.iter().enumerate() {
        add(alloc, &mut own, action.actor(), index as u32 + 1)?;
    }
    Ok(own)
}

// Adds the number to the row of the instance.
fn add(
    alloc: Global,
    own: &mut BTreeMap<InstNo, Row>,
    z: InstNo,
    number: u32,
) -> Result<(), NoMemory>
    ensures { OnOk result ((y : ℕ) → row_at own.new.entries y ≡ (if y == z then row_at own.old.entries z ++ number ∷ [] else row_at own.old.entries y)) }
{
    if let Some(row) = own.get_mut(&z) {
        return row.push(number);
    }
    let mut row = Row::new(alloc);
    row.push(number)?;
    own.insert(z, row)?;
    Ok(())
}

//! Names in the order in which they are first seen.
ghost use Rattle.std.specs.Prelude.{◌≡◌, ◌∷◌, [], flat_map, map, IfOk, OnOk};
ghost use Rattle.metis_universe.specs.Terms.{IsNumbered, names_needed, number_within, ports_of, ports_of_state, ports_of_type, texts};

use crate::limits::MOST_PORTS;
use crate::rows::{NeedRow, StateRow, TypeRow};
use crate::seen::SeenNames;
use metis_ids::PortIx;
use std::alloc::{AllocError, Global};

/// The greatest number of a port that can be written down. No universe has so many ports.
const GREATEST: usize = u32::MAX as usize;

/// The ports of rows.
#[derive(Drop)]
pub struct Sights {
    /// Their names, in the order in which they are first seen.
    pub ports: SeenNames,
    /// The number of the port of each entry: of each state what it provides, and then what it requires.
    pub numbers: Vec<PortIx>,
}

/// Adds the name unless it is there, and its number.
fn add_name(
    alloc: Global,
    seen: &mut SeenNames,
    numbers: &mut Vec<PortIx>,
    name: &str,
) -> Result<(), AllocError>
    ensures { OnOk result (IsNumbered seen.old seen.new numbers.old.items numbers.new.items (name.now ∷ [])) }
{
    let number = seen.see(alloc, name)?;
    numbers.push(PortIx(number.min(GREATEST) as u32))?;
    Ok(())
}

/// Adds the names that are not there yet, and the number of each.
fn add_names(
    alloc: Global,
    seen: &mut SeenNames,
    numbers: &mut Vec<PortIx>,
    names: &[String],
) -> Result<(), AllocError>
    ensures { OnOk result (IsNumbered seen.old seen.new numbers.old.items numbers.new.items (texts names.now)) }
{
    for name in names {
        add_name(alloc, seen, numbers, name.as_str())?;
    }
    Ok(())
}

/// Adds the names of the ports of these entries that are not there yet, and the number of each.
fn add_names_needed(
    alloc: Global,
    seen: &mut SeenNames,
    numbers: &mut Vec<PortIx>,
    needs: &[NeedRow],
) -> Result<(), AllocError>
    ensures { OnOk result (IsNumbered seen.old seen.new numbers.old.items numbers.new.items (names_needed needs.now)) }
{
    for need in needs {
        add_name(alloc, seen, numbers, need.port.as_str())?;
    }
    Ok(())
}

/// Adds the ports of a type's states: of each state those that it provides, and then those that it requires.
fn add_ports(
    alloc: Global,
    seen: &mut SeenNames,
    numbers: &mut Vec<PortIx>,
    states: &[StateRow],
) -> Result<(), AllocError>
    ensures { OnOk result (IsNumbered seen.old seen.new numbers.old.items numbers.new.items (flat_map ports_of_state states.now)) }
{
    for state in states {
        add_names(alloc, seen, numbers, &state.provide)?;
        add_names_needed(alloc, seen, numbers, &state.require)?;
    }
    Ok(())
}

/// Adds the ports of the types, type by type.
fn add_ports_of_types(
    alloc: Global,
    seen: &mut SeenNames,
    numbers: &mut Vec<PortIx>,
    rows: &[TypeRow],
) -> Result<(), AllocError>
    ensures { OnOk result (IsNumbered seen.old seen.new numbers.old.items numbers.new.items (flat_map ports_of_type rows.now)) }
{
    for row in rows {
        add_ports(alloc, seen, numbers, &row.states)?;
    }
    Ok(())
}

/// The ports of all types, in the order in which they are first seen. Room is made for a port a type at first, but for no more than a
/// universe may have.
pub fn ports_of(alloc: Global, rows: &[TypeRow]) -> Result<Sights, AllocError>
    ensures ports { IfOk result (λ found. found.ports ≡ ports_of rows.now) }
    ensures numbers { IfOk result (λ found. found.numbers.items ≡ map (number_within (ports_of rows.now)) (flat_map ports_of_type rows.now)) }
{
    let mut ports = SeenNames::with_capacity(alloc, rows.len().min(MOST_PORTS as usize))?;
    let mut numbers = Vec::new(alloc);
    add_ports_of_types(alloc, &mut ports, &mut numbers, rows)?;
    Ok(Sights { ports, numbers })
}

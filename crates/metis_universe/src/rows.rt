//! The rows of a universe, as a document spells them.
ghost use Rattle.std.specs.Prelude.{IsTrue, ◌↔◌};
ghost use Rattle.metis_universe.specs.Terms.{RowsFit, StateFits, TypeFits};

use std::marker::Model;

/// An entry of what a state requires.
#[derive(Drop)]
pub struct NeedRow {
    /// The name of the port.
    pub port: String,
    /// How many different providers of it.
    pub count: u64,
}

impl Model for NeedRow {
    ghost use Rattle.std.specs.String.{string_bytes};
    ghost use Rattle.metis_universe.specs.RowShapes as rows;

    ghost Value = { rows.NeedRow };

    ghost view = { λ n. record { port = string_bytes n.port; count = n.count } };
}

/// A state of a type.
#[derive(Drop)]
pub struct StateRow {
    pub name: String,
    /// The names of the ports that the state provides.
    pub provide: Vec<String>,
    /// The ports that the state requires. One that stands several times has the greatest of its counts.
    pub require: Vec<NeedRow>,
    /// The names of the states that may follow.
    pub next: Vec<String>,
}

impl Model for StateRow {
    ghost use Rattle.std.specs.String.{string_bytes};
    ghost use Rattle.metis_universe.specs.Texts.{texts};
    ghost use Rattle.metis_universe.specs.RowShapes as rows;

    ghost Value = { rows.StateRow };

    ghost view = { λ s. record { name = string_bytes s.name; provide = texts s.provide.items; require = s.require.items; next = texts s.next.items } };
}

/// A type.
#[derive(Drop)]
pub struct TypeRow {
    pub name: String,
    /// The name of the initial state.
    pub initial: String,
    pub states: Vec<StateRow>,
}

impl Model for TypeRow {
    ghost use Rattle.std.specs.String.{string_bytes};
    ghost use Rattle.metis_universe.specs.RowShapes as rows;

    ghost Value = { rows.TypeRow };

    ghost view = { λ t. record { name = string_bytes t.name; initial = string_bytes t.initial; states = t.states.items } };
}

/// No list of rows is longer than this, so that each place has a number.
const MOST: u64 = 1 << 31;

fn state_fits(row: &StateRow) -> bool
    ensures { IsTrue result ↔ StateFits row.now }
{
    (row.provide.len() as u64) < MOST
        && (row.require.len() as u64) < MOST
        && (row.next.len() as u64) < MOST
}

fn type_fits(row: &TypeRow) -> bool
    ensures { IsTrue result ↔ TypeFits row.now }
{
    (row.states.len() as u64) < MOST && row.states.iter().all(|state| state_fits(state))
}

/// Whether `Universe::new` takes the rows: no list of states, ports or next states has 2^31 entries, and the rows are fewer than 2^32.
pub fn rows_fit(rows: &[TypeRow]) -> bool
    ensures { IsTrue result ↔ RowsFit rows.now }
{
    (rows.len() as u64) < 2 * MOST && rows.iter().all(|row| type_fits(row))
}

//! The tables from which the predecessors of an event are read.
use crate::event_table::EventTable;
use crate::uses::Uses;

/// What the stations of lines take, and what returns into their events.
#[derive(Drop)]
pub struct Tables {
    /// The slots that each pair takes.
    pub uses: Uses,
    /// For each event those from which return edges lead into it.
    pub returns: EventTable,
}

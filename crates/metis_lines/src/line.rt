//! A life line.
ghost use Rattle.std.specs.Prelude.{◌≡◌, ◌<◌, ◌≤◌, ◌++◌, ◌+◌, ◌-◌, length, IfOk, OnOk, IsTrue};
ghost use Rattle.std.specs.List.{slice_index_or};
ghost use Rattle.metis_support.specs.Terms.{is_selected, path_to};
ghost use Rattle.metis_lines.specs.Terms.{ends_in};

use metis_ids::{NoMemory, PairIx, StepIx};
use metis_support::Support;
use std::alloc::Global;
use std::marker::Model;

/// The pairs that an instance is in, one after another: at least one, and at most 64.
#[derive(Drop)]
pub struct Line {
    stations: Vec<PairIx>,
}

impl Model for Line {
    ghost use Rattle.std.specs.Prelude.{List, ℕ, ◌<◌, ◌≤◌, length};

    ghost Value = { List ℕ };

    ghost view = { λ a. a.stations.items };

    ghost invariant = { λ a. (0 < length a.stations.items) × (length a.stations.items ≤ 64) };
}

impl Line {
    /// The way to the pair along origins.
    pub fn to(alloc: Global, s: &Support, p: PairIx) -> Result<Line, NoMemory>
        requires { IsTrue (is_selected s.now p) }
        ensures { IfOk result (λ line. line ≡ path_to s.now p) }
    {
        // For the proof alone: what every support keeps.
        let _kept = s.selected();
        let mut stations = Vec::new(alloc);
        add_path(&mut stations, s, p)?;
        Ok(Line { stations })
    }

    /// How many stations there are.
    pub fn count(&self) -> u32
        ensures count { result ≡ length self.now }
        ensures some { 0 < result }
        ensures short { result ≤ 64 }
    {
        self.stations.len() as u32
    }

    /// The number of the last station.
    pub fn last(&self) -> StepIx
        ensures last { result + 1 ≡ length self.now }
        ensures short { result < 64 }
    {
        StepIx(self.count() - 1)
    }

    /// The pair of a station.
    pub fn station(&self, j: StepIx) -> PairIx
        requires { j < length self.now }
        ensures { result ≡ slice_index_or self.now j 0 }
    {
        self.stations[j.0 as usize]
    }

    /// Whether the pair is the last.
    pub fn ends_in(&self, p: PairIx) -> bool
        ensures { result ≡ ends_in p self.now }
    {
        self.stations[self.stations.len() - 1] == p
    }
}

// Appends the way to the pair.
fn add_path(stations: &mut Vec<PairIx>, s: &Support, p: PairIx) -> Result<(), NoMemory>
    requires { IsTrue (is_selected s.now p) }
    ensures { OnOk result (stations.new.items ≡ stations.old.items ++ path_to s.now p) }
{
    // For the proof alone: what every support keeps.
    let _kept = s.selected();
    if let Some(o) = s.origin(p) {
        add_path(stations, s, o)?;
    }
    stations.push(p)?;
    Ok(())
}

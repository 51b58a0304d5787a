//! What is left to be demanded where some providers are given.
ghost use Rattle.std.specs.Prelude.{[], ◌≡◌, ◌<◌, ◌-◌, map, IfOk};
ghost use Rattle.std.specs.List.{filter, slice_index_or};
ghost use Rattle.metis_universe.specs.Terms.{demand_of, further_left, has, pair_at, pair_count, required_left, residual, residual_row};

use super::build::indexed;
use super::{PairRow, Universe};
use metis_ids::{IxVec, NoMemory, PairIx, PairSet, PortIx};
use std::alloc::{AllocError, Global};

impl Universe {
    /// The universe that is left to plan over where so many providers of each port are given and some pairs are avoided. A pair that
    /// is not its type's initial pair demands so many providers of the port fewer, and does not require a port of which it would
    /// demand none. An avoided pair provides nothing. Types, pairs, ports, names and transitions stay.
    pub fn residual(
        &self,
        alloc: Global,
        given: &IxVec<PortIx, u32>,
        avoided: &PairSet,
    ) -> Result<Universe, NoMemory>
        ensures { IfOk result (λ left. left ≡ residual self.now (λ r. slice_index_or given.now r 0) avoided.now.members) }
    {
        let pairs = self.residual_rows(alloc, given, avoided)?;
        let kinds = self.kinds.copy()?;
        let initials = self.initials.clone()?;
        let ports = self.ports.copy()?;
        let left = indexed(alloc, self.version, kinds, initials, pairs, ports)?;
        Ok(left)
    }

    // The rows of all pairs.
    fn residual_rows(
        &self,
        alloc: Global,
        given: &IxVec<PortIx, u32>,
        avoided: &PairSet,
    ) -> Result<Vec<PairRow>, AllocError>
        ensures { IfOk result (λ rows. rows.items ≡ (residual self.now (λ r. slice_index_or given.now r 0) avoided.now.members).pairs) }
    {
        let mut rows = Vec::with_capacity(alloc, self.pairs.len())?;
        for number in 0..self.pairs() {
            let row = self.residual_row(alloc, PairIx(number), given, avoided)?;
            rows.push(row)?;
        }
        Ok(rows)
    }

    // The row of the pair.
    fn residual_row(
        &self,
        alloc: Global,
        p: PairIx,
        given: &IxVec<PortIx, u32>,
        avoided: &PairSet,
    ) -> Result<PairRow, AllocError>
        requires { p < pair_count self.now }
        ensures { IfOk result (λ row. row ≡ residual_row self.now (λ r. slice_index_or given.now r 0) avoided.now.members p) }
    {
        let (required, further) = self.needs_left(alloc, p, given)?;
        let provided = if avoided.has(p) {
            Vec::new(alloc)
        } else {
            self.pairs[p.0 as usize].provided.clone()?
        };
        let row = &self.pairs[p.0 as usize];
        Ok(PairRow {
            kind: row.kind,
            state: row.state.clone()?,
            provided,
            required,
            further,
            next: row.next.clone()?,
        })
    }

    // The ports that the pair still requires, and how many providers of each it needs besides one.
    fn needs_left(
        &self,
        alloc: Global,
        p: PairIx,
        given: &IxVec<PortIx, u32>,
    ) -> Result<(Vec<PortIx>, Vec<u64>), AllocError>
        requires { p < pair_count self.now }
        ensures required { IfOk result (λ left. left.0.items ≡ (residual_row self.now (λ r. slice_index_or given.now r 0) [] p).required) }
        ensures further { IfOk result (λ left. left.1.items ≡ (residual_row self.now (λ r. slice_index_or given.now r 0) [] p).further) }
    {
        let row = &self.pairs[p.0 as usize];
        if self.is_initial(p) {
            return Ok((row.required.clone()?, row.further.clone()?));
        }
        self.relieved(alloc, p, given)
    }

    // What a pair that is not initial still needs, and of how many.
    fn relieved(
        &self,
        alloc: Global,
        p: PairIx,
        given: &IxVec<PortIx, u32>,
    ) -> Result<(Vec<PortIx>, Vec<u64>), AllocError>
        requires { p < pair_count self.now }
        ensures required { IfOk result (λ left. left.0.items ≡ required_left (λ r. slice_index_or given.now r 0) (pair_at self.now p)) }
        ensures further { IfOk result (λ left. left.1.items ≡ further_left (λ r. slice_index_or given.now r 0) (pair_at self.now p)) }
    {
        let required = self.required_left(alloc, p, given)?;
        let further = self.further_left(alloc, p, given, &required)?;
        Ok((required, further))
    }

    // The ports of which more providers are demanded than are given.
    fn required_left(
        &self,
        alloc: Global,
        p: PairIx,
        given: &IxVec<PortIx, u32>,
    ) -> Result<Vec<PortIx>, AllocError>
        requires { p < pair_count self.now }
        ensures { IfOk result (λ left. left.items ≡ required_left (λ r. slice_index_or given.now r 0) (pair_at self.now p)) }
    {
        let mut left = Vec::new(alloc);
        for r in self.requires_(p) {
            if count_of(given, *r) < self.demand(p, *r) {
                left.push(*r)?;
            }
        }
        Ok(left)
    }

    // How many more providers of each of these ports are demanded than one more than are given.
    fn further_left(
        &self,
        alloc: Global,
        p: PairIx,
        given: &IxVec<PortIx, u32>,
        required: &[PortIx],
    ) -> Result<Vec<u64>, AllocError>
        requires { p < pair_count self.now }
        ensures { IfOk result (λ further. further.items ≡ map (λ r. demand_of self.now p r - slice_index_or given.now r 0 - 1) required.now) }
    {
        let mut further = Vec::new(alloc);
        for r in required {
            let left = self.demand(p, *r).saturating_sub(count_of(given, *r));
            further.push(left.saturating_sub(1) as u64)?;
        }
        Ok(further)
    }
}

// How many providers of the port are given.
fn count_of(given: &IxVec<PortIx, u32>, r: PortIx) -> u32
    ensures { result ≡ slice_index_or given.now r 0 }
{
    match given.get(r) {
        Some(count) => *count,
        None => 0,
    }
}

//! The rows of the types of a place.
ghost use Rattle.std.specs.Prelude.{◌≡◌, ◌<◌, [], ◌∷◌, ◌++◌, map, IfOk, codes};
ghost use Rattle.metis_universe.specs.Terms.{texts};
ghost use Rattle.metis_gen.specs.Terms.{earlier_z, generated_rows, left_row, one_of, right_row, state_row, three_digits};

use crate::names::numbered;
use metis_universe::{NeedRow, StateRow, TypeRow};
use std::alloc::{AllocError, Global};

/// The list of one name.
fn one(alloc: Global, name: &str) -> Result<Vec<String>, AllocError>
    ensures { IfOk result (λ names. texts names.items ≡ name.now ∷ []) }
{
    let mut names = Vec::new(alloc);
    names.push(String::from_str(alloc, name)?)?;
    Ok(names)
}

/// The list of one port of the place.
fn port(alloc: Global, word: &str, i: u32) -> Result<Vec<String>, AllocError>
    requires { i < 1000 }
    ensures { IfOk result (λ names. texts names.items ≡ (word.now ++ three_digits i) ∷ []) }
{
    let mut names = Vec::new(alloc);
    names.push(numbered(alloc, word, i)?)?;
    Ok(names)
}

/// The list of one provider of one port of the place.
fn need(alloc: Global, word: &str, i: u32) -> Result<Vec<NeedRow>, AllocError>
    requires { i < 1000 }
    ensures { IfOk result (λ needs. needs.items ≡ map one_of ((word.now ++ three_digits i) ∷ [])) }
{
    let mut needs = Vec::new(alloc);
    needs.push(NeedRow {
        port: numbered(alloc, word, i)?,
        count: 1,
    })?;
    Ok(needs)
}

/// One provider of the port z of the place before. The first place needs none.
fn earlier(alloc: Global, i: u32) -> Result<Vec<NeedRow>, AllocError>
    requires { i < 1000 }
    ensures { IfOk result (λ needs. needs.items ≡ map one_of (earlier_z i)) }
{
    if i == 0 {
        Ok(Vec::new(alloc))
    } else {
        need(alloc, "z", i - 1)
    }
}

/// A state that provides and requires these ports, and leads to these states.
fn state(
    alloc: Global,
    name: &str,
    provide: Vec<String>,
    require: Vec<NeedRow>,
    next: Vec<String>,
) -> Result<StateRow, AllocError>
    ensures { IfOk result (λ row. row ≡ record { name = name.now; provide = texts provide.items; require = require.items; next = texts next.items }) }
{
    let name = String::from_str(alloc, name)?;
    Ok(StateRow {
        name,
        provide,
        require,
        next,
    })
}

/// A state without ports, which leads to another.
fn first(alloc: Global, name: &str, next: &str) -> Result<StateRow, AllocError>
    ensures { IfOk result (λ row. row ≡ state_row name.now [] [] (next.now ∷ [])) }
{
    let next = one(alloc, next)?;
    state(alloc, name, Vec::new(alloc), Vec::new(alloc), next)
}

/// A state that provides this port of the place, and leads to another.
fn provider(
    alloc: Global,
    name: &str,
    word: &str,
    i: u32,
    next: &str,
) -> Result<StateRow, AllocError>
    requires { i < 1000 }
    ensures { IfOk result (λ row. row ≡ state_row name.now ((word.now ++ three_digits i) ∷ []) [] (next.now ∷ [])) }
{
    let next = one(alloc, next)?;
    let provide = port(alloc, word, i)?;
    state(alloc, name, provide, Vec::new(alloc), next)
}

/// A state that requires this port of the place, and leads to another.
fn requirer(
    alloc: Global,
    name: &str,
    word: &str,
    i: u32,
    next: &str,
) -> Result<StateRow, AllocError>
    requires { i < 1000 }
    ensures { IfOk result (λ row. row ≡ state_row name.now [] ((word.now ++ three_digits i) ∷ []) (next.now ∷ [])) }
{
    let next = one(alloc, next)?;
    let require = need(alloc, word, i)?;
    state(alloc, name, Vec::new(alloc), require, next)
}

/// The left state that provides x, and requires the port z of the place before.
fn link(alloc: Global, i: u32) -> Result<StateRow, AllocError>
    requires { i < 1000 }
    ensures { IfOk result (λ row. row ≡ state_row (codes "a1") ((codes "x" ++ three_digits i) ∷ []) (earlier_z i) (codes "a2" ∷ [])) }
{
    let next = one(alloc, "a2")?;
    let provide = port(alloc, "x", i)?;
    let require = earlier(alloc, i)?;
    state(alloc, "a1", provide, require, next)
}

/// The right state that provides z, and is the last.
fn end(alloc: Global, i: u32) -> Result<StateRow, AllocError>
    requires { i < 1000 }
    ensures { IfOk result (λ row. row ≡ state_row (codes "b3") ((codes "z" ++ three_digits i) ∷ []) [] []) }
{
    let provide = port(alloc, "z", i)?;
    state(alloc, "b3", provide, Vec::new(alloc), Vec::new(alloc))
}

/// The states of the left type.
fn left_states(alloc: Global, i: u32) -> Result<Vec<StateRow>, AllocError>
    requires { i < 1000 }
    ensures { IfOk result (λ rows. rows.items ≡ (left_row i).states) }
{
    let mut states = Vec::new(alloc);
    states.push(first(alloc, "a0", "a1")?)?;
    states.push(link(alloc, i)?)?;
    states.push(requirer(alloc, "a2", "y", i, "a3")?)?;
    states.push(state(
        alloc,
        "a3",
        Vec::new(alloc),
        Vec::new(alloc),
        Vec::new(alloc),
    )?)?;
    Ok(states)
}

/// The states of the right type.
fn right_states(alloc: Global, i: u32) -> Result<Vec<StateRow>, AllocError>
    requires { i < 1000 }
    ensures { IfOk result (λ rows. rows.items ≡ (right_row i).states) }
{
    let mut states = Vec::new(alloc);
    states.push(first(alloc, "b0", "b1")?)?;
    states.push(provider(alloc, "b1", "y", i, "b2")?)?;
    states.push(requirer(alloc, "b2", "x", i, "b3")?)?;
    states.push(end(alloc, i)?)?;
    Ok(states)
}

/// The left type of the place.
fn left(alloc: Global, i: u32) -> Result<TypeRow, AllocError>
    requires { i < 1000 }
    ensures { IfOk result (λ row. row ≡ left_row i) }
{
    let states = left_states(alloc, i)?;
    let name = numbered(alloc, "left", i)?;
    let initial = String::from_str(alloc, "a0")?;
    Ok(TypeRow {
        name,
        initial,
        states,
    })
}

/// The right type of the place.
fn right(alloc: Global, i: u32) -> Result<TypeRow, AllocError>
    requires { i < 1000 }
    ensures { IfOk result (λ row. row ≡ right_row i) }
{
    let states = right_states(alloc, i)?;
    let name = numbered(alloc, "right", i)?;
    let initial = String::from_str(alloc, "b0")?;
    Ok(TypeRow {
        name,
        initial,
        states,
    })
}

/// The types of all places below n.
pub fn generated_rows(alloc: Global, n: u32) -> Result<Vec<TypeRow>, AllocError>
    requires { n < 1000 }
    ensures { IfOk result (λ rows. rows.items ≡ generated_rows n) }
{
    let mut rows = Vec::new(alloc);
    for i in 0..n {
        rows.push(left(alloc, i)?)?;
        rows.push(right(alloc, i)?)?;
    }
    Ok(rows)
}

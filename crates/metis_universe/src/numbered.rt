//! Names with numbers, and a look-up by name.
ghost use Rattle.std.specs.Prelude.{◌≡◌, ◌<◌, ◌≤◌, [], length, position, replicate, IfOk, IfSome, OnOk};
ghost use Rattle.std.specs.List.{IsDistinct, slice_index_or};
ghost use Rattle.std.specs.Str.{bytes_eq};
ghost use Rattle.metis_universe.specs.Terms.{IsChained, bucket_numbered, bucket_of, hash_of, texts};

use std::alloc::{AllocError, Global};
use std::marker::Model;

/// Names, each once, numbered from 0. Contracts see the list of names.
#[derive(Drop)]
pub struct NumberedNames {
    names: Vec<String>,
    /// Of each bucket the last number in it, raised by one, and 0 where there is none.
    lasts: Vec<usize>,
    /// Of each number the one before it in its bucket, raised by one, and 0 where there is none.
    befores: Vec<usize>,
}

impl Model for NumberedNames {
    ghost use Rattle.std.specs.Prelude.{◌<◌, List, ℕ, length};
    ghost use Rattle.std.specs.List.{IsDistinct};
    ghost use Rattle.std.specs.Str.{bytes_eq};
    ghost use Rattle.metis_universe.specs.Buckets.{IsChained, bucket_numbered};
    ghost use Rattle.metis_universe.specs.Texts.{texts};

    ghost Value = { List (List ℕ) };

    ghost view = { λ a. texts a.names.items };

    ghost invariant = { λ a. IsDistinct bytes_eq (texts a.names.items) × (0 < length a.lasts.items) × IsChained (bucket_numbered (texts a.names.items) (length a.lasts.items)) (length a.names.items) a.lasts.items a.befores.items };
}

impl NumberedNames {
    /// These names, each numbered by its place.
    pub fn of(alloc: Global, names: Vec<String>) -> Result<NumberedNames, AllocError>
        requires { IsDistinct bytes_eq (texts names.items) }
        ensures { IfOk result (λ made. made ≡ texts names.items) }
    {
        let mut lasts = empty_buckets(alloc, names.len().max(1))?;
        let befores = chain(alloc, &names, &mut lasts)?;
        Ok(NumberedNames {
            names,
            lasts,
            befores,
        })
    }

    /// A copy.
    pub fn copy(&self) -> Result<NumberedNames, AllocError>
        ensures { IfOk result (λ names. names ≡ self.now) }
    {
        Ok(NumberedNames {
            names: self.names.clone()?,
            lasts: self.lasts.clone()?,
            befores: self.befores.clone()?,
        })
    }

    /// How many names there are.
    pub fn count(&self) -> usize
        ensures { result ≡ length self.now }
    {
        self.names.len()
    }

    /// The names in order.
    pub fn as_slice(&self) -> &[String]
        ensures { texts result.now ≡ self.now }
    {
        self.names.as_slice()
    }

    /// The name of this number.
    pub fn name(&self, number: usize) -> &str
        requires { number < length self.now }
        ensures { result.now ≡ slice_index_or self.now number [] }
    {
        self.names[number].as_str()
    }

    /// The number of the name.
    pub fn number_of(&self, name: &str) -> Option<usize>
        ensures number { result ≡ position (bytes_eq name.now) self.now }
        ensures within { IfSome result (λ number. number < length self.now) }
    {
        number_named(&self.names, &self.lasts, &self.befores, name)
    }
}

/// So many buckets without a number.
fn empty_buckets(alloc: Global, count: usize) -> Result<Vec<usize>, AllocError>
    ensures { IfOk result (λ lasts. lasts.items ≡ replicate count 0) }
{
    let mut lasts = Vec::with_capacity(alloc, count)?;
    for _ in 0..count {
        lasts.push(0)?;
    }
    Ok(lasts)
}

/// A number from the bytes of a name.
fn hash_of(name: &str) -> u64
    ensures { result ≡ hash_of name.now }
{
    let mut hash = 0;
    for byte in name.as_bytes() {
        hash = (hash * 31 + u64::from(*byte)) % (1 << 32);
    }
    hash
}

/// The bucket of a name among so many.
fn bucket_of(name: &str, count: usize) -> usize
    requires { 0 < count }
    ensures bucket { result ≡ bucket_of count name.now }
    ensures within { result < count }
{
    (hash_of(name) % count as u64) as usize
}

/// Chains the numbers of the names in buckets that have none yet.
fn chain(alloc: Global, names: &[String], lasts: &mut [usize]) -> Result<Vec<usize>, AllocError>
    requires some { 0 < length lasts.old }
    requires none { lasts.old ≡ replicate (length lasts.old) 0 }
    ensures { IfOk result (λ befores. IsChained (bucket_numbered (texts names.now) (length lasts.new)) (length names.now) lasts.new befores.items) }
{
    let mut befores = Vec::with_capacity(alloc, names.len())?;
    for number in 0..names.len() {
        let bucket = bucket_of(names[number].as_str(), lasts.len());
        befores.push(lasts[bucket])?;
        lasts[bucket] = number + 1;
    }
    Ok(befores)
}

/// The number of the name, looked for along its bucket from the last number in it.
fn number_named(names: &[String], lasts: &[usize], befores: &[usize], name: &str) -> Option<usize>
    requires apart { IsDistinct bytes_eq (texts names.now) }
    requires some { 0 < length lasts.now }
    requires chained { IsChained (bucket_numbered (texts names.now) (length lasts.now)) (length names.now) lasts.now befores.now }
    ensures { result ≡ position (bytes_eq name.now) (texts names.now) }
{
    let mut behind = lasts[bucket_of(name, lasts.len())];
    while behind > 0 {
        let number = behind - 1;
        if name == names[number].as_str() {
            return Some(number);
        }
        behind = befores[number];
    }
    None
}

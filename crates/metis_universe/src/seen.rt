//! Names while they are numbered.
ghost use Rattle.std.specs.Prelude.{◌≡◌, ◌<◌, [], Some, length, position, IfOk, IfSome, OnOk};
ghost use Rattle.std.specs.Str.{bytes_eq};
ghost use Rattle.std.specs.String.{string_eq};
ghost use Rattle.indexmap.specs.IndexSet.{IsUnique};
ghost use Rattle.metis_universe.specs.Terms.{texts, with_name};

use crate::numbered::NumberedNames;
use indexmap::IndexSet;
use std::alloc::{AllocError, Global};
use std::marker::Model;

/// Names, each once, in the order in which they were first seen. Contracts see the list of names.
#[derive(Drop)]
pub struct SeenNames {
    names: IndexSet<String>,
}

impl Model for SeenNames {
    ghost use Rattle.std.specs.Prelude.{List, ℕ};
    ghost use Rattle.metis_universe.specs.Texts.{texts};

    ghost Value = { List (List ℕ) };

    ghost view = { λ a. texts a.names.keys };
}

impl SeenNames {
    /// No names, with room for so many.
    pub fn with_capacity(alloc: Global, count: usize) -> Result<SeenNames, AllocError>
        ensures { IfOk result (λ names. names ≡ []) }
    {
        Ok(SeenNames {
            names: IndexSet::with_capacity(alloc, count)?,
        })
    }

    /// How many names there are.
    pub fn count(&self) -> usize
        ensures { result ≡ length self.now }
    {
        self.names.len()
    }

    /// The names in order.
    pub fn as_slice(&self) -> &[String]
        ensures { texts result.now ≡ self.now }
    {
        self.names.as_slice()
    }

    /// The number of the name.
    pub fn number_of(&self, name: &str) -> Option<usize>
        ensures number { result ≡ position (bytes_eq name.now) self.now }
        ensures within { IfSome result (λ number. number < length self.now) }
    {
        self.names.get_index_of(name)
    }

    /// The number of the name, which gets the next one unless it has one.
    pub fn see(&mut self, alloc: Global, name: &str) -> Result<usize, AllocError>
        ensures seen { OnOk result (self.new ≡ with_name self.old name.now) }
        ensures number { IfOk result (λ number. position (bytes_eq name.now) self.new ≡ Some number) }
    {
        if let Some(number) = self.names.get_index_of(name) {
            return Ok(number);
        }
        let number = self.names.len();
        self.names.insert(String::from_str(alloc, name)?)?;
        Ok(number)
    }

    /// The names with their numbers, once all are seen.
    pub fn numbered(self, alloc: Global) -> Result<NumberedNames, AllocError>
        ensures { IfOk result (λ names. names ≡ self) }
    {
        let names = listed(alloc, self.names)?;
        NumberedNames::of(alloc, names)
    }
}

// The names in order. None is there twice.
fn listed(alloc: Global, names: IndexSet<String>) -> Result<Vec<String>, AllocError>
    ensures names { IfOk result (λ listed. listed.items ≡ names.keys) }
    ensures once { IsUnique string_eq names }
{
    names.into_iter().collect(alloc)
}

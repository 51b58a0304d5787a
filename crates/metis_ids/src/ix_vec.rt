//! Lists that are indexed by an index type.
ghost use Rattle.std.specs.Prelude.{◌≡◌, ◌+◌, ◌-◌, ◌^◌, ◌<◌, ◌==◌, ◌++◌, ◌∷◌, [], length, IfOk, OnOk, OnErr, slice_get, slice_set};
ghost use Rattle.std.specs.Option.{option_copied};
ghost use Rattle.std.specs.Slice.{IsItemAt};

use crate::{Ix, NoMemory};
use std::alloc::Global;
use std::marker::{Model, PhantomData};

/// A list of fewer than 2^32 items that is indexed by `I`. Contracts see it as the list of its items.
#[derive(Drop)]
pub struct IxVec<I: Ix, T: Drop> {
    items: Vec<T>,
    index: PhantomData<I>,
}

impl<I: Ix, T: Drop> Model for IxVec<I, T> {
    ghost use Rattle.std.specs.Prelude.{List, length, ◌^◌, ◌<◌};

    ghost Value = { List T };

    ghost view = { λ v. v.items.items };

    ghost invariant = { λ v. length v.items.items < 2 ^ 32 };
}

impl<I: Ix, T: Drop> IxVec<I, T> {
    pub fn new(alloc: Global) -> Self
        ensures { result ≡ [] }
    {
        IxVec {
            items: Vec::new(alloc),
            index: PhantomData,
        }
    }

    /// Appends an item, and answers its index. Where memory runs out the list stays as it was.
    pub fn push(&mut self, item: T) -> Result<I, NoMemory>
        requires { length self.old < 2 ^ 32 - 1 }
        ensures items { OnOk result (self.new ≡ self.old ++ item ∷ []) }
        ensures index { IfOk result (λ i. I.number_of i ≡ length self.old) }
        ensures err { OnErr result (self.new ≡ self.old) }
    {
        let index = I::of_number(self.items.len() as u32);
        self.items.push(item)?;
        Ok(index)
    }

    /// The item of an index, and `None` past the end.
    pub fn get(&self, i: I) -> Option<&T>
        ensures value { option_copied result ≡ slice_get self.now (I.number_of i) }
        ensures item { IsItemAt self.now (I.number_of i) result }
    {
        self.items.get(i.number() as usize)
    }

    /// Replaces the item of an index that is there.
    pub fn set(&mut self, i: I, item: T)
        requires { I.number_of i < length self.old }
        ensures { self.new ≡ slice_set self.old (I.number_of i) item }
    {
        self.items[i.number() as usize] = item;
    }

    pub fn len(&self) -> u32
        ensures len { result ≡ length self.now }
        ensures limit { length self.now < 2 ^ 32 }
    {
        self.items.len() as u32
    }

    pub fn is_empty(&self) -> bool
        ensures { result ≡ (length self.now == 0) }
    {
        self.items.is_empty()
    }
}

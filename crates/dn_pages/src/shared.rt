ghost use Rattle.std.specs.Prelude.{◌≡◌, ◌<◌, ◌≤◌, IfOk, OnOk, length, slice_set, take, drop};
ghost use Rattle.std.specs.List.{insert, remove};

use dn_io::{Duplicate, OutOfMemory};
use std::alloc::Global;
use std::marker::Model;
use std::mem;
use std::sync::Arc;

/// A list that several owners share, as contracts see it the list of its items. A change by one owner is seen by no other:
/// an owner that isn't alone takes a list of its own first, which holds copies of the items.
#[derive(Drop)]
pub struct Shared<T> {
    items: Arc<Vec<T>, Global>,
}

impl<T> Model for Shared<T> {
    ghost use Rattle.std.specs.Prelude.{List as Seq};
    ghost use Rattle.std.specs.Coded.{coded_list};

    ghost Value = { Seq T };

    ghost coded = { coded_list T.code };

    ghost view = { λ shared. shared.items.value.items };
}

impl<T: Drop> Shared<T> {
    /// A list of these items, with one owner.
    ///
    /// # Errors
    /// `OutOfMemory`.
    pub fn of(alloc: Global, items: Vec<T>) -> Result<Self, OutOfMemory>
        ensures { IfOk result (λ shared. shared ≡ items.items) }
    {
        Ok(Shared {
            items: Arc::new(alloc, items)?,
        })
    }
}

impl<T> Shared<T> {
    /// The items.
    pub fn as_slice(&self) -> &[T]
        ensures { result.now ≡ self.now }
    {
        self.items.as_slice()
    }

    /// One owner more of the same list. Nothing is allocated.
    ///
    /// # Errors
    /// `OutOfMemory` where no owner more can be counted.
    pub fn share(&self) -> Result<Self, OutOfMemory>
        ensures { IfOk result (λ shared. shared ≡ self.now) }
    {
        Ok(Shared {
            items: Arc::try_clone(&self.items)?,
        })
    }
}

impl<T: Drop> Duplicate for Shared<T> {
    fn copy(&self, _alloc: Global) -> Result<Self, OutOfMemory> {
        self.share()
    }
}

// Copies of items, in a vector of their own that has room for one more.
pub fn copies<T: Duplicate + Drop>(alloc: Global, items: &[T]) -> Result<Vec<T>, OutOfMemory>
    ensures { IfOk result (λ copies. copies.items ≡ items.now) }
{
    let mut copies = Vec::with_capacity(alloc, items.len().saturating_add(1))?;
    for item in items {
        copies.push(item.copy(alloc)?)?;
    }
    Ok(copies)
}

impl<T: Duplicate + Drop> Shared<T> {
    // Takes the items out: the list's own, in whose place it is left empty, or copies where there are other owners.
    pub fn take(&mut self, alloc: Global) -> Result<Vec<T>, OutOfMemory>
        ensures { IfOk result (λ items. items.items ≡ self.old) }
    {
        match Arc::get_mut(&mut self.items) {
            Some(own) => Ok(mem::replace(own, Vec::new(alloc))),
            None => copies(alloc, self.items.as_slice()),
        }
    }

    // Puts items in the place of those that are there. Other owners keep what they have.
    pub fn give(&mut self, alloc: Global, items: Vec<T>) -> Result<(), OutOfMemory>
        ensures { OnOk result (self.new ≡ items.items) }
    {
        match Arc::get_mut(&mut self.items) {
            Some(own) => {
                *own = items;
            }
            None => {
                *self = Shared::of(alloc, items)?;
            }
        }
        Ok(())
    }

    // Puts an item in the place of another.
    pub fn set(&mut self, alloc: Global, at: usize, item: T) -> Result<(), OutOfMemory>
        requires { at < length self.old }
        ensures { OnOk result (self.new ≡ slice_set self.old at item) }
    {
        let mut items = self.take(alloc)?;
        items[at] = item;
        self.give(alloc, items)
    }

    // Puts an item before the one at a place, or behind all.
    pub fn insert(&mut self, alloc: Global, at: usize, item: T) -> Result<(), OutOfMemory>
        requires { at ≤ length self.old }
        ensures { OnOk result (self.new ≡ insert self.old at item) }
    {
        let mut items = self.take(alloc)?;
        items.insert(at, item)?;
        self.give(alloc, items)
    }

    // Takes an item out.
    pub fn remove(&mut self, alloc: Global, at: usize) -> Result<(), OutOfMemory>
        requires { at < length self.old }
        ensures { OnOk result (self.new ≡ remove self.old at) }
    {
        let mut items = self.take(alloc)?;
        items.remove(at);
        self.give(alloc, items)
    }

    // Cuts the items from a place on off, which become a list of their own.
    pub fn split_off(&mut self, alloc: Global, at: usize) -> Result<Self, OutOfMemory>
        requires { at ≤ length self.old }
        ensures { IfOk result (λ back. (self.new ≡ take at self.old) × (back ≡ drop at self.old)) }
    {
        let mut items = self.take(alloc)?;
        let back = items.split_off(at)?;
        self.give(alloc, items)?;
        Shared::of(alloc, back)
    }
}

ghost use Rattle.std.specs.Prelude.{◌≡◌, ◌==◌, [], ◌∷◌, ◌++◌, length, take, slice_get, slice_set, ◌<◌, option_copied, OnOk, OnErr, IfOk};

use crate::{Duplicate, OutOfMemory};
use std::alloc::Global;
use std::marker::Model;

/// A vector that contracts see as the list of its items.
#[derive(Drop)]
pub struct List<T> {
    items: Vec<T>,
}

impl<T> Model for List<T> {
    ghost use Rattle.std.specs.Prelude.{List as Seq};
    ghost use Rattle.std.specs.Coded.{coded_list};

    ghost Value = { Seq T };

    ghost coded = { coded_list T.code };

    ghost view = { λ list. list.items.items };
}

impl<T> List<T> {
    /// An empty list, for which nothing is allocated.
    pub fn new(alloc: Global) -> Self
        ensures { result ≡ [] }
    {
        List {
            items: Vec::new(alloc),
        }
    }

    /// The list of a vector's items.
    pub fn of(items: Vec<T>) -> Self
        ensures { result ≡ items.items }
    {
        List { items }
    }

    /// The vector of the list's items, which takes no memory.
    pub fn into_vec(self) -> Vec<T>
        ensures { result.items ≡ self }
    {
        let List { items } = self;
        items
    }

    pub fn len(&self) -> usize
        ensures { result ≡ length self.now }
    {
        self.items.len()
    }

    pub fn is_empty(&self) -> bool
        ensures { result ≡ (length self.now == 0) }
    {
        self.items.is_empty()
    }

    pub fn get(&self, at: usize) -> Option<&T>
        ensures { option_copied result ≡ slice_get self.now at }
    {
        self.items.get(at)
    }

    pub fn as_slice(&self) -> &[T]
        ensures { result.now ≡ self.now }
    {
        self.items.as_slice()
    }

    // Where the list's memory comes from.
    pub(crate) fn allocator(&self) -> Global {
        *self.items.allocator()
    }
}

impl<T: Drop> List<T> {
    /// Adds an item at the end. A refused item is dropped.
    ///
    /// # Errors
    /// `OutOfMemory` where the growth was refused; the list is then as before.
    pub fn push(&mut self, item: T) -> Result<(), OutOfMemory>
        ensures ok { OnOk result (self.new ≡ self.old ++ item ∷ []) }
        ensures err { OnErr result (self.new ≡ self.old) }
    {
        Ok(self.items.push(item)?)
    }
}

impl<T: Drop> List<T> {
    /// Puts an item in the place of another.
    pub fn set(&mut self, at: usize, item: T)
        requires { at < length self.old }
        ensures { self.new ≡ slice_set self.old at item }
    {
        self.items[at] = item;
    }
}

impl List<u8> {
    /// Adds bytes at the end.
    ///
    /// # Errors
    /// `OutOfMemory` where the growth was refused; the list is then as before.
    pub fn extend(&mut self, bytes: &[u8]) -> Result<(), OutOfMemory>
        ensures ok { OnOk result (self.new ≡ self.old ++ bytes.now) }
        ensures err { OnErr result (self.new ≡ self.old) }
    {
        Ok(self.items.extend_from_slice(bytes)?)
    }

    /// Adds two pieces at the end, both of them or none.
    ///
    /// # Errors
    /// `OutOfMemory` where the growth was refused; the list is then as before.
    pub fn extend_both(&mut self, first: &[u8], second: &[u8]) -> Result<(), OutOfMemory>
        ensures ok { OnOk result (self.new ≡ self.old ++ first.now ++ second.now) }
        ensures err { OnErr result (self.new ≡ self.old) }
    {
        // With the room for both taken, the second can't be refused behind the first.
        self.items.reserve(first.len() + second.len())?;
        if self.items.extend_from_slice(first).is_err() {
            unreachable!()
        }
        if self.items.extend_from_slice(second).is_err() {
            unreachable!()
        }
        Ok(())
    }
}

impl<T: Duplicate + Drop> List<T> {
    /// The list of copies of items.
    ///
    /// # Errors
    /// `OutOfMemory`.
    pub fn from_slice(alloc: Global, items: &[T]) -> Result<Self, OutOfMemory>
        ensures { IfOk result (λ list. list ≡ items.now) }
    {
        // Room for these items and for no more, since most lists stay as they are.
        let mut list = List {
            items: Vec::with_capacity(alloc, items.len())?,
        };
        list.push_copies(alloc, items)?;
        Ok(list)
    }

    /// Adds copies of items at the end, all of them or none.
    ///
    /// # Errors
    /// `OutOfMemory` where the growth or a copy was refused; the list is then as before.
    pub fn extend_copies(&mut self, alloc: Global, items: &[T]) -> Result<(), OutOfMemory>
        ensures ok { OnOk result (self.new ≡ self.old ++ items.now) }
        ensures err { OnErr result (self.new ≡ self.old) }
    {
        // What refuses the room refuses it before a copy is made.
        self.items.reserve(items.len())?;
        let before = self.items.len();
        let done = self.push_copies(alloc, items);
        if done.is_err() {
            self.items.truncate(before);
        }
        done
    }

    // Adds copies of items at the end, on an error some of them.
    fn push_copies(&mut self, alloc: Global, items: &[T]) -> Result<(), OutOfMemory>
        ensures ok { OnOk result (self.new ≡ self.old ++ items.now) }
        ensures front { self.old ≡ take (length self.old) self.new }
    {
        for item in items {
            self.push(item.copy(alloc)?)?;
        }
        Ok(())
    }
}

impl<T: Duplicate + Drop> Duplicate for List<T> {
    fn copy(&self, alloc: Global) -> Result<Self, OutOfMemory> {
        List::from_slice(alloc, self.as_slice())
    }
}

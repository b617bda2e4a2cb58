ghost use Rattle.std.specs.Prelude.{◌≡◌, ◌++◌, ◌∷◌, [], IfOk, slice_get, slice_set, option_copied};
ghost use Rattle.std.specs.List.{insert, remove};
ghost use Rattle.dn_pages.specs.Pages.{AreRows, IsInside, IsSettled, IsThere, items, rank};
ghost use Rattle.dn_pages.specs.Search.{IsCut};

use crate::mark::{Mark, Place};
use crate::pages::Pages;
use crate::rows::{insert_in_rows, push_in_rows, remove_in_rows, set_in_rows};
use crate::search_rows::{item_in_rows, place_in_rows};
use crate::shared::Shared;
use dn_io::{Duplicate, OutOfMemory};
use std::alloc::Global;
use std::marker::Model;

/// Pages that change, as contracts see them the list of their rows. A page or a row is copied where it is shared, once: then it is the
/// draft's own. A change that is refused memory gives the draft up, and other owners of its pages never see a change.
#[derive(Drop)]
pub struct Draft<T> {
    alloc: Global,
    rows: Vec<Shared<Shared<T>>>,
}

impl<T> Model for Draft<T> {
    ghost use Rattle.std.specs.Prelude.{List as Seq};
    ghost use Rattle.std.specs.Coded.{coded_list};
    ghost use Rattle.dn_pages.specs.Pages.{AreRows};

    ghost Value = { Seq (Seq (Seq T)) };

    ghost coded = { coded_list (coded_list (coded_list T.code)) };

    ghost view = { λ draft. draft.rows.items };

    ghost invariant = { λ draft. AreRows draft.rows.items };
}

impl<T> Draft<T> {
    // The draft of rows.
    pub(crate) fn of(alloc: Global, rows: Vec<Shared<Shared<T>>>) -> Self
        requires { AreRows rows.items }
        ensures { result ≡ rows.items }
    {
        Draft { alloc, rows }
    }

    /// The place of the first item that isn't below the mark.
    pub fn place_of<M: Mark<T>>(&self, mark: &M) -> Place
        ensures cut { IsCut (M.below mark.now) (items self.now) (rank self.now result) }
        ensures inside { IsInside self.now result }
        ensures settled { IsSettled self.now result }
    {
        place_in_rows(self.rows.as_slice(), mark)
    }

    /// The item at a place.
    pub fn item_at(&self, place: Place) -> Option<&T>
        requires { IsSettled self.now place }
        ensures { option_copied result ≡ slice_get (items self.now) (rank self.now place) }
    {
        item_in_rows(self.rows.as_slice(), place)
    }
}

impl<T: Duplicate + Drop> Draft<T> {
    /// The draft with an item in the place of another.
    ///
    /// # Errors
    /// `OutOfMemory`.
    pub fn set(self, place: Place, item: T) -> Result<Self, OutOfMemory>
        requires { IsThere self place }
        ensures { IfOk result (λ draft. items draft ≡ slice_set (items self) (rank self place) item) }
    {
        let Draft { alloc, mut rows } = self;
        set_in_rows(alloc, &mut rows, place, item)?;
        Ok(Draft { alloc, rows })
    }

    /// The draft with an item before the one at a place, or behind all.
    ///
    /// # Errors
    /// `OutOfMemory`.
    pub fn insert(self, place: Place, item: T) -> Result<Self, OutOfMemory>
        requires { IsInside self place }
        ensures { IfOk result (λ draft. items draft ≡ insert (items self) (rank self place) item) }
    {
        let Draft { alloc, mut rows } = self;
        insert_in_rows(alloc, &mut rows, place, item)?;
        Ok(Draft { alloc, rows })
    }

    /// The draft without the item at a place.
    ///
    /// # Errors
    /// `OutOfMemory`.
    pub fn remove(self, place: Place) -> Result<Self, OutOfMemory>
        requires { IsThere self place }
        ensures { IfOk result (λ draft. items draft ≡ remove (items self) (rank self place)) }
    {
        let Draft { alloc, mut rows } = self;
        remove_in_rows(alloc, &mut rows, place)?;
        Ok(Draft { alloc, rows })
    }

    /// The draft with an item behind all.
    ///
    /// # Errors
    /// `OutOfMemory`.
    pub fn push(self, item: T) -> Result<Self, OutOfMemory>
        ensures { IfOk result (λ draft. items draft ≡ items self ++ item ∷ []) }
    {
        let Draft { alloc, mut rows } = self;
        push_in_rows(alloc, &mut rows, item)?;
        Ok(Draft { alloc, rows })
    }

    /// The pages as they are now.
    ///
    /// # Errors
    /// `OutOfMemory`.
    pub fn finish(self) -> Result<Pages<T>, OutOfMemory>
        ensures { IfOk result (λ pages. pages ≡ self) }
    {
        let Draft { alloc, rows } = self;
        Pages::of(alloc, rows)
    }
}

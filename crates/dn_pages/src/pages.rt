ghost use Rattle.std.specs.Prelude.{◌≡◌, ◌<◌, ◌+◌, ◌^◌, [], IfOk, length, slice_get, option_copied};
ghost use Rattle.dn_pages.specs.Pages.{AreRows, IsInside, IsSettled, IsThere, items, rank};
ghost use Rattle.dn_pages.specs.Search.{IsCut};

use crate::draft::Draft;
use crate::mark::{Mark, Place};
use crate::search_rows::{first_in_rows, item_in_rows, items_in_rows, next_in_rows, place_in_rows};
use crate::shared::{Shared, copies};
use dn_io::OutOfMemory;
use std::alloc::Global;
use std::marker::Model;

/// Items in shared pages of 1 to 64, which stand in shared rows of 1 to 64 pages, as contracts see them the list of the rows.
#[derive(Drop)]
pub struct Pages<T> {
    rows: Shared<Shared<Shared<T>>>,
}

impl<T> Model for Pages<T> {
    ghost use Rattle.std.specs.Prelude.{List as Seq};
    ghost use Rattle.std.specs.Coded.{coded_list};
    ghost use Rattle.dn_pages.specs.Pages.{AreRows};

    ghost Value = { Seq (Seq (Seq T)) };

    ghost coded = { coded_list (coded_list (coded_list T.code)) };

    ghost view = { λ pages. pages.rows };

    ghost invariant = { λ pages. AreRows pages.rows };
}

impl<T: Drop> Pages<T> {
    /// No rows.
    ///
    /// # Errors
    /// `OutOfMemory`.
    pub fn empty(alloc: Global) -> Result<Self, OutOfMemory>
        ensures { IfOk result (λ pages. pages ≡ []) }
    {
        Ok(Pages {
            rows: Shared::of(alloc, Vec::new(alloc))?,
        })
    }

    // The pages of rows.
    pub(crate) fn of(alloc: Global, rows: Vec<Shared<Shared<T>>>) -> Result<Self, OutOfMemory>
        requires { AreRows rows.items }
        ensures { IfOk result (λ pages. pages ≡ rows.items) }
    {
        Ok(Pages {
            rows: Shared::of(alloc, rows)?,
        })
    }

    /// A draft that begins with the same rows, which it shares.
    ///
    /// # Errors
    /// `OutOfMemory`.
    pub fn draft(&self, alloc: Global) -> Result<Draft<T>, OutOfMemory>
        ensures { IfOk result (λ draft. draft ≡ self.now) }
    {
        Ok(Draft::of(alloc, copies(alloc, self.rows.as_slice())?))
    }
}

impl<T> Pages<T> {
    /// The same pages once more. Nothing is allocated.
    ///
    /// # Errors
    /// `OutOfMemory` where no owner more can be counted.
    pub fn share(&self) -> Result<Self, OutOfMemory>
        ensures { IfOk result (λ pages. pages ≡ self.now) }
    {
        Ok(Pages {
            rows: self.rows.share()?,
        })
    }

    /// How many items there are.
    pub fn count(&self) -> usize
        requires { length (items self.now) < 2 ^ 64 }
        ensures { result ≡ length (items self.now) }
    {
        items_in_rows(self.rows.as_slice())
    }

    /// The place of the first item that isn't below the mark.
    pub fn place_of<M: Mark<T>>(&self, mark: &M) -> Place
        ensures cut { IsCut (M.below mark.now) (items self.now) (rank self.now result) }
        ensures inside { IsInside self.now result }
        ensures settled { IsSettled self.now result }
    {
        place_in_rows(self.rows.as_slice(), mark)
    }

    /// The first item.
    pub fn first(&self) -> Option<&T>
        ensures { option_copied result ≡ slice_get (items self.now) 0 }
    {
        first_in_rows(self.rows.as_slice())
    }

    /// The item at a place.
    pub fn item_at(&self, place: Place) -> Option<&T>
        requires { IsSettled self.now place }
        ensures { option_copied result ≡ slice_get (items self.now) (rank self.now place) }
    {
        item_in_rows(self.rows.as_slice(), place)
    }

    /// The place behind that of an item.
    pub fn next(&self, place: Place) -> Place
        requires { IsThere self.now place }
        ensures next { rank self.now result ≡ rank self.now place + 1 }
        ensures inside { IsInside self.now result }
        ensures settled { IsSettled self.now result }
    {
        next_in_rows(self.rows.as_slice(), place)
    }
}

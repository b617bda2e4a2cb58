ghost use Rattle.std.specs.Prelude.{◌≡◌, ◌<◌, ◌≤◌, ◌+◌, ◌++◌, ◌∷◌, [], OnOk, length, nat_le, slice_set};
ghost use Rattle.std.specs.List.{insert, remove};
ghost use Rattle.dn_pages.specs.Pages.{ArePages, AreRows, IsInside, IsItem, IsThere, IsWithin, count_before, items, joined, rank, row_at};

use crate::mark::{Place, Spot};
use crate::row::{
    PAGE_HALF, PAGE_MOST, insert_item, insert_page, remove_item, set_item, split_page,
};
use crate::search_rows::end_in;
use crate::shared::Shared;
use dn_io::{Duplicate, OutOfMemory};
use std::alloc::Global;

// ---- one row

// Puts an item into a row's pages.
fn insert_in_row<T: Duplicate + Drop>(
    alloc: Global,
    row: &mut Shared<Shared<T>>,
    spot: Spot,
    item: T,
) -> Result<(), OutOfMemory>
    requires inside { IsWithin row.old spot }
    requires sized { ArePages row.old }
    ensures joined { OnOk result (joined row.new ≡ insert (joined row.old) (count_before row.old spot) item) }
    ensures sized { OnOk result (ArePages row.new) }
    ensures least { OnOk result (length row.old ≤ length row.new) }
    ensures most { OnOk result (length row.new ≤ length row.old + 1) }
{
    let mut pages = row.take(alloc)?;
    insert_item(alloc, &mut pages, spot, item)?;
    row.give(alloc, pages)
}

// Puts an item in the place of another of a row.
fn set_in_row<T: Duplicate + Drop>(
    alloc: Global,
    row: &mut Shared<Shared<T>>,
    spot: Spot,
    item: T,
) -> Result<(), OutOfMemory>
    requires there { IsItem row.old spot }
    requires sized { ArePages row.old }
    ensures joined { OnOk result (joined row.new ≡ slice_set (joined row.old) (count_before row.old spot) item) }
    ensures sized { OnOk result (ArePages row.new) }
    ensures same { OnOk result (length row.new ≡ length row.old) }
{
    let mut pages = row.take(alloc)?;
    set_item(alloc, &mut pages, spot, item)?;
    row.give(alloc, pages)
}

// Takes an item out of a row.
fn remove_in_row<T: Duplicate + Drop>(
    alloc: Global,
    row: &mut Shared<Shared<T>>,
    spot: Spot,
) -> Result<(), OutOfMemory>
    requires there { IsItem row.old spot }
    requires sized { ArePages row.old }
    ensures joined { OnOk result (joined row.new ≡ remove (joined row.old) (count_before row.old spot)) }
    ensures sized { OnOk result (ArePages row.new) }
    ensures fewer { OnOk result (length row.new ≤ length row.old) }
{
    let mut pages = row.take(alloc)?;
    remove_item(alloc, &mut pages, spot)?;
    row.give(alloc, pages)
}

// Whether a row holds one item at most.
fn holds_one<T>(row: &[Shared<T>]) -> bool
    requires { ArePages row.now }
    ensures { result ≡ nat_le (length (joined row.now)) 1 }
{
    match row {
        [] => true,
        [page] => page.as_slice().len() <= 1,
        _ => false,
    }
}

// ---- rows

// Puts an item behind all, as a row of one page of one item.
fn push_row<T: Drop>(
    alloc: Global,
    rows: &mut Vec<Shared<Shared<T>>>,
    item: T,
) -> Result<(), OutOfMemory>
    requires { AreRows rows.old.items }
    ensures items { OnOk result (items rows.new.items ≡ insert (items rows.old.items) (length (items rows.old.items)) item) }
    ensures sized { OnOk result (AreRows rows.new.items) }
{
    let mut page = Vec::new(alloc);
    page.push(item)?;
    let end = rows.len();
    insert_page(alloc, rows, end, Shared::of(alloc, page)?)
}

// Puts an item into a row that isn't full.
fn insert_with_room<T: Duplicate + Drop>(
    alloc: Global,
    rows: &mut Vec<Shared<Shared<T>>>,
    place: Place,
    item: T,
) -> Result<(), OutOfMemory>
    requires within { place.row < length rows.old.items }
    requires inside { IsInside rows.old.items place }
    requires room { length (row_at rows.old.items place.row) < 64 }
    requires sized { AreRows rows.old.items }
    ensures items { OnOk result (items rows.new.items ≡ insert (items rows.old.items) (rank rows.old.items place) item) }
    ensures sized { OnOk result (AreRows rows.new.items) }
{
    insert_in_row(alloc, &mut rows[place.row], place.spot(), item)
}

// Puts an item into a full row, of which two are made.
fn insert_in_full_row<T: Duplicate + Drop>(
    alloc: Global,
    rows: &mut Vec<Shared<Shared<T>>>,
    place: Place,
    item: T,
) -> Result<(), OutOfMemory>
    requires within { place.row < length rows.old.items }
    requires inside { IsInside rows.old.items place }
    requires full { length (row_at rows.old.items place.row) ≡ 64 }
    requires sized { AreRows rows.old.items }
    ensures items { OnOk result (items rows.new.items ≡ insert (items rows.old.items) (rank rows.old.items place) item) }
    ensures sized { OnOk result (AreRows rows.new.items) }
{
    split_page(alloc, rows, place.row)?;
    if place.page < PAGE_HALF {
        return insert_with_room(alloc, rows, place, item);
    }
    let row = place.row + 1;
    let page = place.page - PAGE_HALF;
    let at = place.at;
    insert_with_room(alloc, rows, Place { row, page, at }, item)
}

// Puts an item before the one at a place, or behind all.
pub fn insert_in_rows<T: Duplicate + Drop>(
    alloc: Global,
    rows: &mut Vec<Shared<Shared<T>>>,
    place: Place,
    item: T,
) -> Result<(), OutOfMemory>
    requires inside { IsInside rows.old.items place }
    requires sized { AreRows rows.old.items }
    ensures items { OnOk result (items rows.new.items ≡ insert (items rows.old.items) (rank rows.old.items place) item) }
    ensures sized { OnOk result (AreRows rows.new.items) }
{
    if place.row >= rows.len() {
        return push_row(alloc, rows, item);
    }
    if rows[place.row].as_slice().len() < PAGE_MOST {
        insert_with_room(alloc, rows, place, item)
    } else {
        insert_in_full_row(alloc, rows, place, item)
    }
}

// Puts an item behind all.
pub fn push_in_rows<T: Duplicate + Drop>(
    alloc: Global,
    rows: &mut Vec<Shared<Shared<T>>>,
    item: T,
) -> Result<(), OutOfMemory>
    requires { AreRows rows.old.items }
    ensures items { OnOk result (items rows.new.items ≡ items rows.old.items ++ item ∷ []) }
    ensures sized { OnOk result (AreRows rows.new.items) }
{
    let place = end_in(rows.as_slice());
    insert_in_rows(alloc, rows, place, item)
}

// Puts an item in the place of another.
pub fn set_in_rows<T: Duplicate + Drop>(
    alloc: Global,
    rows: &mut Vec<Shared<Shared<T>>>,
    place: Place,
    item: T,
) -> Result<(), OutOfMemory>
    requires there { IsThere rows.old.items place }
    requires sized { AreRows rows.old.items }
    ensures items { OnOk result (items rows.new.items ≡ slice_set (items rows.old.items) (rank rows.old.items place) item) }
    ensures sized { OnOk result (AreRows rows.new.items) }
{
    set_in_row(alloc, &mut rows[place.row], place.spot(), item)
}

// Takes an item out, and its row where it was the row's last.
pub fn remove_in_rows<T: Duplicate + Drop>(
    alloc: Global,
    rows: &mut Vec<Shared<Shared<T>>>,
    place: Place,
) -> Result<(), OutOfMemory>
    requires there { IsThere rows.old.items place }
    requires sized { AreRows rows.old.items }
    ensures items { OnOk result (items rows.new.items ≡ remove (items rows.old.items) (rank rows.old.items place)) }
    ensures sized { OnOk result (AreRows rows.new.items) }
{
    if holds_one(rows[place.row].as_slice()) {
        rows.remove(place.row);
        return Ok(());
    }
    remove_in_row(alloc, &mut rows[place.row], place.spot())
}

ghost use Rattle.std.specs.Prelude.{◌≡◌, ◌<◌, ◌≤◌, ◌+◌, ◌++◌, ◌∷◌, [], OnOk, drop, length, slice_index_or, slice_set, take};
ghost use Rattle.std.specs.List.{insert, remove};
ghost use Rattle.dn_pages.specs.Pages.{ArePages, IsItem, IsWithin, count_before, joined};

use crate::mark::Spot;
use crate::shared::Shared;
use dn_io::{Duplicate, OutOfMemory};
use std::alloc::Global;

// The most items of a page.
pub const PAGE_MOST: usize = 64;

// How many items a full page keeps where it is split.
pub const PAGE_HALF: usize = 32;

// Puts a page of one item before the one at a place, or behind all.
pub fn insert_page<T: Drop>(
    alloc: Global,
    row: &mut Vec<Shared<T>>,
    at: usize,
    item: T,
) -> Result<(), OutOfMemory>
    requires within { at ≤ length row.old.items }
    requires sized { ArePages row.old.items }
    ensures joined { OnOk result (joined row.new.items ≡ insert (joined row.old.items) (length (joined (take at row.old.items))) item) }
    ensures sized { OnOk result (ArePages row.new.items) }
    ensures more { OnOk result (length row.new.items ≡ length row.old.items + 1) }
{
    let mut items = Vec::new(alloc);
    items.push(item)?;
    row.insert(at, Shared::of(alloc, items)?)?;
    Ok(())
}

// Puts an item into a page that isn't full.
fn insert_in_page<T: Duplicate + Drop>(
    alloc: Global,
    row: &mut Vec<Shared<T>>,
    spot: Spot,
    item: T,
) -> Result<(), OutOfMemory>
    requires within { spot.page < length row.old.items }
    requires inside { IsWithin row.old.items spot }
    requires room { length (slice_index_or row.old.items spot.page []) < 64 }
    requires sized { ArePages row.old.items }
    ensures joined { OnOk result (joined row.new.items ≡ insert (joined row.old.items) (count_before row.old.items spot) item) }
    ensures sized { OnOk result (ArePages row.new.items) }
    ensures same { OnOk result (length row.new.items ≡ length row.old.items) }
{
    row[spot.page].insert(alloc, spot.at, item)
}

// Makes two pages of a full page.
pub fn split_page<T: Duplicate + Drop>(
    alloc: Global,
    row: &mut Vec<Shared<T>>,
    at: usize,
) -> Result<(), OutOfMemory>
    requires within { at < length row.old.items }
    requires full { length (slice_index_or row.old.items at []) ≡ 64 }
    requires sized { ArePages row.old.items }
    ensures joined { OnOk result (joined row.new.items ≡ joined row.old.items) }
    ensures sized { OnOk result (ArePages row.new.items) }
    ensures more { OnOk result (length row.new.items ≡ length row.old.items + 1) }
    ensures before { OnOk result (take at row.new.items ≡ take at row.old.items) }
    ensures front { OnOk result (slice_index_or row.new.items at [] ≡ take 32 (slice_index_or row.old.items at [])) }
    ensures back { OnOk result (slice_index_or row.new.items (at + 1) [] ≡ drop 32 (slice_index_or row.old.items at [])) }
{
    let back = row[at].split_off(alloc, PAGE_HALF)?;
    row.insert(at + 1, back)?;
    Ok(())
}

// Puts an item into a full page, of which two are made.
fn insert_in_full<T: Duplicate + Drop>(
    alloc: Global,
    row: &mut Vec<Shared<T>>,
    spot: Spot,
    item: T,
) -> Result<(), OutOfMemory>
    requires within { spot.page < length row.old.items }
    requires inside { IsWithin row.old.items spot }
    requires full { length (slice_index_or row.old.items spot.page []) ≡ 64 }
    requires sized { ArePages row.old.items }
    ensures joined { OnOk result (joined row.new.items ≡ insert (joined row.old.items) (count_before row.old.items spot) item) }
    ensures sized { OnOk result (ArePages row.new.items) }
    ensures more { OnOk result (length row.new.items ≡ length row.old.items + 1) }
{
    split_page(alloc, row, spot.page)?;
    if spot.at <= PAGE_HALF {
        return insert_in_page(alloc, row, spot, item);
    }
    let page = spot.page + 1;
    let at = spot.at - PAGE_HALF;
    insert_in_page(alloc, row, Spot { page, at }, item)
}

// Puts an item before the one at a place, or behind all.
pub fn insert_item<T: Duplicate + Drop>(
    alloc: Global,
    row: &mut Vec<Shared<T>>,
    spot: Spot,
    item: T,
) -> Result<(), OutOfMemory>
    requires inside { IsWithin row.old.items spot }
    requires sized { ArePages row.old.items }
    ensures joined { OnOk result (joined row.new.items ≡ insert (joined row.old.items) (count_before row.old.items spot) item) }
    ensures sized { OnOk result (ArePages row.new.items) }
    ensures least { OnOk result (length row.old.items ≤ length row.new.items) }
    ensures most { OnOk result (length row.new.items ≤ length row.old.items + 1) }
{
    if spot.page >= row.len() {
        let end = row.len();
        return insert_page(alloc, row, end, item);
    }
    if spot.at >= PAGE_MOST {
        return insert_page(alloc, row, spot.page + 1, item);
    }
    if row[spot.page].as_slice().len() < PAGE_MOST {
        insert_in_page(alloc, row, spot, item)
    } else {
        insert_in_full(alloc, row, spot, item)
    }
}

// Puts an item in the place of another.
pub fn set_item<T: Duplicate + Drop>(
    alloc: Global,
    row: &mut Vec<Shared<T>>,
    spot: Spot,
    item: T,
) -> Result<(), OutOfMemory>
    requires there { IsItem row.old.items spot }
    requires sized { ArePages row.old.items }
    ensures joined { OnOk result (joined row.new.items ≡ slice_set (joined row.old.items) (count_before row.old.items spot) item) }
    ensures sized { OnOk result (ArePages row.new.items) }
    ensures same { OnOk result (length row.new.items ≡ length row.old.items) }
{
    row[spot.page].set(alloc, spot.at, item)
}

// Takes an item out, and its page where it was the page's last.
pub fn remove_item<T: Duplicate + Drop>(
    alloc: Global,
    row: &mut Vec<Shared<T>>,
    spot: Spot,
) -> Result<(), OutOfMemory>
    requires there { IsItem row.old.items spot }
    requires sized { ArePages row.old.items }
    ensures joined { OnOk result (joined row.new.items ≡ remove (joined row.old.items) (count_before row.old.items spot)) }
    ensures sized { OnOk result (ArePages row.new.items) }
    ensures fewer { OnOk result (length row.new.items ≤ length row.old.items) }
{
    if row[spot.page].as_slice().len() <= 1 {
        row.remove(spot.page);
        return Ok(());
    }
    row[spot.page].remove(alloc, spot.at)
}

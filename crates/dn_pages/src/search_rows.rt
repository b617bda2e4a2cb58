ghost use Rattle.std.specs.Prelude.{◌≡◌, ◌<◌, ◌+◌, ◌^◌, [], length, option_copied, slice_get};
ghost use Rattle.dn_pages.specs.Pages.{AreRows, IsInside, IsSettled, IsSettledSpot, IsThere, IsWithin, count_before, items, joined, rank, row_at, spot_of};
ghost use Rattle.dn_pages.specs.Search.{IsCut, starts_below};

use crate::mark::{Mark, Place, Spot};
use crate::search::{first_in, home_of, item_in, items_of, settled, spot_in};
use crate::shared::Shared;

// The mark at the first page whose first item isn't below a mark.
#[derive(Clone, Copy)]
struct Starts<'a, M> {
    mark: &'a M,
}

impl<T, M: Mark<T>> Mark<Shared<T>> for Starts<'_, M> {
    ghost below = { λ starts page. starts_below (M.below starts.mark.now) page };

    fn is_above(&self, item: &Shared<T>) -> bool {
        match item.as_slice().first() {
            None => false,
            Some(item) => self.mark.is_above(item),
        }
    }
}

// The same place, at the start of the next row in place of the end of a row.
fn settled_in_rows<T>(rows: &[Shared<Shared<T>>], place: Place) -> Place
    requires sized { AreRows rows.now }
    requires within { place.row < length rows.now }
    requires inside { IsInside rows.now place }
    requires settled { IsSettledSpot (row_at rows.now place.row) (spot_of place) }
    ensures same { rank rows.now result ≡ rank rows.now place }
    ensures inside { IsInside rows.now result }
    ensures settled { IsSettled rows.now result }
{
    if item_in(rows[place.row].as_slice(), place.spot()).is_some() {
        return place;
    }
    if place.row + 1 < rows.len() {
        let row = place.row + 1;
        return Place {
            row,
            page: 0,
            at: 0,
        };
    }
    place
}

// The place of the first item that isn't below the mark.
pub fn place_in_rows<T, M: Mark<T>>(rows: &[Shared<Shared<T>>], mark: &M) -> Place
    requires { AreRows rows.now }
    ensures cut { IsCut (M.below mark.now) (items rows.now) (rank rows.now result) }
    ensures inside { IsInside rows.now result }
    ensures settled { IsSettled rows.now result }
{
    if rows.is_empty() {
        return Place {
            row: 0,
            page: 0,
            at: 0,
        };
    }
    let row = home_of(rows, &Starts { mark });
    let Spot { page, at } = spot_in(rows[row].as_slice(), mark);
    settled_in_rows(rows, Place { row, page, at })
}

// The place behind that of an item.
pub fn next_in_rows<T>(rows: &[Shared<Shared<T>>], place: Place) -> Place
    requires sized { AreRows rows.now }
    requires there { IsThere rows.now place }
    ensures next { rank rows.now result ≡ rank rows.now place + 1 }
    ensures inside { IsInside rows.now result }
    ensures settled { IsSettled rows.now result }
{
    let row = place.row;
    let Spot { page, at } = settled(rows[row].as_slice(), place.page, place.at + 1);
    settled_in_rows(rows, Place { row, page, at })
}

// The place behind all items, in the last page where there is one.
pub fn end_in<T>(rows: &[Shared<Shared<T>>]) -> Place
    requires { AreRows rows.now }
    ensures end { rank rows.now result ≡ length (items rows.now) }
    ensures inside { IsInside rows.now result }
{
    if rows.is_empty() {
        return Place {
            row: 0,
            page: 0,
            at: 0,
        };
    }
    let row = rows.len() - 1;
    let Spot { page, at } = end_spot(rows[row].as_slice());
    Place { row, page, at }
}

// The spot behind all items of pages, in the last of them.
fn end_spot<T>(pages: &[Shared<T>]) -> Spot
    requires { 0 < length pages.now }
    ensures end { count_before pages.now result ≡ length (joined pages.now) }
    ensures inside { IsWithin pages.now result }
{
    let page = pages.len() - 1;
    let at = pages[page].as_slice().len();
    Spot { page, at }
}

// The item at a place.
pub fn item_in_rows<T>(rows: &[Shared<Shared<T>>], place: Place) -> Option<&T>
    requires { IsSettled rows.now place }
    ensures { option_copied result ≡ slice_get (items rows.now) (rank rows.now place) }
{
    if place.row >= rows.len() {
        return None;
    }
    item_in(rows[place.row].as_slice(), place.spot())
}

// The first item.
pub fn first_in_rows<T>(rows: &[Shared<Shared<T>>]) -> Option<&T>
    requires { AreRows rows.now }
    ensures { option_copied result ≡ slice_get (items rows.now) 0 }
{
    if rows.is_empty() {
        return None;
    }
    first_in(rows[0].as_slice())
}

// How many items the rows have.
#[tactic(auto, using(crate::proofs::RowSearchLemmas::items_more))]
pub fn items_in_rows<T>(rows: &[Shared<Shared<T>>]) -> usize
    requires { length (items rows.now) < 2 ^ 64 }
    ensures { result ≡ length (items rows.now) }
{
    let mut count: usize = 0;
    for row in rows {
        count += items_of(row.as_slice());
    }
    count
}

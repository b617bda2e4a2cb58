ghost use Rattle.std.specs.Prelude.{◌≡◌, ◌<◌, ◌≤◌, ◌+◌, ◌^◌, [], length, slice_get, slice_index_or, option_copied};
ghost use Rattle.dn_pages.specs.Pages.{ArePages, IsSettledSpot, IsWithin, count_before, joined};
ghost use Rattle.dn_pages.specs.Search.{IsCut, IsHome, starts_below};

use crate::mark::{Mark, Spot};
use crate::shared::Shared;

// The place of the first item that isn't below the mark, by halves.
fn cut_of<T, M: Mark<T>>(items: &[T], mark: &M) -> usize
    ensures { IsCut (M.below mark.now) items.now result }
{
    let mut low = 0;
    let mut high = items.len();
    while low < high {
        let middle = low + (high - low) / 2;
        if mark.is_above(&items[middle]) {
            low = middle + 1;
        } else {
            high = middle;
        }
    }
    low
}

// Whether the first item of the page at a place is below the mark.
fn page_starts_below<T, M: Mark<T>>(pages: &[Shared<T>], at: usize, mark: &M) -> bool
    requires { at < length pages.now }
    ensures { result ≡ starts_below (M.below mark.now) (slice_index_or pages.now at []) }
{
    match pages[at].as_slice().first() {
        None => false,
        Some(item) => mark.is_above(item),
    }
}

// The last page whose first item is below the mark, or the first page, by halves.
pub fn home_of<T, M: Mark<T>>(pages: &[Shared<T>], mark: &M) -> usize
    requires { 0 < length pages.now }
    ensures { IsHome (M.below mark.now) pages.now result }
{
    let mut low = 0;
    let mut high = pages.len();
    while high - low > 1 {
        let middle = low + (high - low) / 2;
        if page_starts_below(pages, middle, mark) {
            low = middle;
        } else {
            high = middle;
        }
    }
    low
}

// The same spot, at the start of the next page in place of the end of a page.
pub fn settled<T>(pages: &[Shared<T>], page: usize, at: usize) -> Spot
    requires sized { ArePages pages.now }
    requires within { page < length pages.now }
    requires inside { at ≤ length (slice_index_or pages.now page []) }
    ensures same { count_before pages.now result ≡ count_before pages.now (record { page = page; at = at }) }
    ensures inside { IsWithin pages.now result }
    ensures settled { IsSettledSpot pages.now result }
{
    if at < pages[page].as_slice().len() {
        return Spot { page, at };
    }
    if page + 1 < pages.len() {
        let page = page + 1;
        return Spot { page, at: 0 };
    }
    Spot { page, at }
}

// The spot of the first item that isn't below the mark.
pub fn spot_in<T, M: Mark<T>>(pages: &[Shared<T>], mark: &M) -> Spot
    requires { ArePages pages.now }
    ensures cut { IsCut (M.below mark.now) (joined pages.now) (count_before pages.now result) }
    ensures inside { IsWithin pages.now result }
    ensures settled { IsSettledSpot pages.now result }
{
    if pages.is_empty() {
        return Spot { page: 0, at: 0 };
    }
    let page = home_of(pages, mark);
    let at = cut_of(pages[page].as_slice(), mark);
    settled(pages, page, at)
}

// The item of a page at a place in it.
fn nth<T>(items: &[T], at: usize) -> Option<&T>
    ensures { option_copied result ≡ slice_get items.now at }
{
    items.get(at)
}

// The item at a spot.
pub fn item_in<T>(pages: &[Shared<T>], spot: Spot) -> Option<&T>
    requires { IsSettledSpot pages.now spot }
    ensures { option_copied result ≡ slice_get (joined pages.now) (count_before pages.now spot) }
{
    if spot.page >= pages.len() {
        return None;
    }
    nth(pages[spot.page].as_slice(), spot.at)
}

// The first item.
#[tactic(auto, using(crate::proofs::JoinedLemmas::first_there))]
pub fn first_in<T>(pages: &[Shared<T>]) -> Option<&T>
    requires { ArePages pages.now }
    ensures { option_copied result ≡ slice_get (joined pages.now) 0 }
{
    if pages.is_empty() {
        return None;
    }
    nth(pages[0].as_slice(), 0)
}

// How many items the pages have.
#[tactic(auto, using(crate::proofs::JoinedLemmas::joined_more))]
pub fn items_of<T>(pages: &[Shared<T>]) -> usize
    requires { length (joined pages.now) < 2 ^ 64 }
    ensures { result ≡ length (joined pages.now) }
{
    let mut count: usize = 0;
    for page in pages {
        count += page.as_slice().len();
    }
    count
}

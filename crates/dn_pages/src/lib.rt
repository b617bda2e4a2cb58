//! Lists in shared pages: a copy shares the pages of its source, and a change copies the pages that it touches alone.
#![tactic(auto)]

mod draft;
mod mark;
mod pages;
mod row;
mod rows;
mod search;
mod search_rows;
mod shared;
mod threads;

pub use draft::Draft;
pub use mark::{Mark, Place};
pub use pages::Pages;

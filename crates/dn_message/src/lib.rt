//! DNS messages (RFC 1035 4.1): which kind of message bytes are, queries read from bytes and written, replies written and
//! read. `read_reply` alone takes memory.
#![tactic(auto)]

mod additional;
mod counts;
mod decided;
mod error;
mod header;
mod kind;
mod laws;
mod number;
mod pieces;
mod query;
mod question;
mod questions;
mod rcode;
mod rdata;
mod record;
mod reply;
mod row;
mod rr;
mod sections;
mod short;
mod threads;
mod writer;
mod writing;

pub use decided::the_query_is_one;
pub use error::{FormError, FormFault, ReadError};
pub use kind::{Kind, kind_of};
pub use laws::{queries_are_spelled_once, replies_are_spelled_once};
pub use query::{Opt, Query, read_query};
pub use rcode::Rcode;
pub use reply::{Question, Reply, read_reply};
pub use rr::Rr;
pub use short::short_reply;
pub use writer::{ReplyHead, ReplyWriter, Section};
pub use writing::write_query;

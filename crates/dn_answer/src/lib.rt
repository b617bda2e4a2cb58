//! The reply of a zone to a question (RFC 1034 4.3.2, RFC 2308): the walk over delegations and aliases, the additional rows,
//! the cut at 512 bytes, and the reply's bytes.
#![tactic(auto)]

mod alike;
mod datagrams;
mod glue;
mod lookups;
mod reply;
mod replying;
mod rows;
mod sendable;
mod size;
mod threads;
mod told;
mod view;
mod walk;
mod writing;

pub use alike::{equal_replicas_answer_alike, equal_replicas_reply_alike};
pub use datagrams::{Received, is_refused, write_reply};
pub use reply::AnswerValue;
pub use replying::{answer, refused};
pub use sendable::answers_are_sendable;
pub use told::value_of;
pub use view::ZoneView;
pub use writing::write_answer;

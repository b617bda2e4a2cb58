//! What a DNS server with directory-integrated zones needs of the outside: moments, lists, statuses, sources and sinks
//! of bytes that count their faults, and a reader of lines.
#![tactic(auto)]

mod duplicate;
mod line;
mod list;
mod moment;
mod outside;
mod sink;
mod source;
mod standard;
mod status;
mod sure;
mod threads;

pub use duplicate::{Duplicate, OutOfMemory};
pub use line::{Line, LineBuf, LineError, read_line};
pub use list::List;
pub use moment::Moment;
pub use outside::{Addr, Failed, Sink, Source, write_all};
pub use sink::MemSink;
pub use source::MemSource;
pub use standard::{StdSink, StdSource};
pub use status::Status;
pub use sure::{SureSink, SureSource};

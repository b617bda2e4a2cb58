//! Stored records of a node in bytes (MS-DNSP 2.3.2.2): read, lent from their bytes without memory, and written.
#![tactic(auto)]

mod error;
mod header;
mod laws;
mod names;
mod number;
mod parts;
mod read;
mod threads;
mod view;
mod write;

pub use error::{RecordError, RecordFault, RecordReadError};
pub use laws::{first_faults_are_one, records_are_in_range, stored_records_are_spelled_once};
pub use read::read_record;
pub use view::RecordView;
pub use write::write_record;

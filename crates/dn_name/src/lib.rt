//! Domain names (RFC 1035 2.3.4, 3.1, 5.1): labels of 1 to 63 bytes, at most 255 bytes on the wire;
//! in a message they share their ends by pointers (4.1.4), and in stored values they are counted. No call takes memory.
#![tactic(auto)]

mod counted;
mod error;
mod laws;
mod name;
mod order;
mod pointers;
mod text;
mod threads;
mod wire;

pub use error::{NameError, NameFault, NoRoom};
pub use laws::{
    first_faults_are_one, names_are_spelled_once, plain_faults_are_one, plain_names_are_spelled,
    pointers_fall,
};
pub use name::Name;
pub use text::text_is_read_back;

//! Words of lines: numbers, names, addresses of IPv4, moments, identities of replicas, bytes as hex digits.
#![tactic(auto)]

mod address;
mod cuts;
mod error;
mod hexadecimal;
mod laws;
mod number;
mod parts;
mod print;
mod replica;
mod threads;
mod words;

pub use address::{cut, ip_of, push_dotted};
pub use cuts::{cut_last_word, cut_word, trimmed};
pub use error::TextError;
pub use hexadecimal::{bytes_of_hex, hex_line, push_hex};
pub use laws::{addresses_are_read_back, numbers_are_read_back};
pub use number::number_within;
pub use parts::{moment_of, name_of, number_of};
pub use print::{push_count, push_name, push_number};
pub use replica::{id_of, is_replica_name};
pub use words::{is_word, parts_between, words_of};

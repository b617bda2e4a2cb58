//! Text of values: types, data and rows (RFC 1035 5.1), and lines of stored records and properties.
#![tactic(auto)]

mod field;
mod labelled;
mod laws;
mod long_address;
mod property_lines;
mod property_table;
mod quoted;
mod read_data;
mod read_field;
mod record_lines;
mod row;
mod strings;
mod table;
mod types;

pub use dn_word::TextError;
pub use laws::{
    data_are_read_back, digits_are_read_back, long_addresses_are_read_back,
    properties_are_read_back, records_are_read_back, strings_are_read_back,
};
pub use property_lines::{property_line, read_property_line};
pub use read_data::read_rdata;
pub use record_lines::{read_record_line, record_line};
pub use row::row_line;
pub use types::{is_type_a, type_of};

//! Records of a node: their data on the wire, its parts, its names in lower case, and the order of records (RFC 1035 3.3,
//! RFC 2136 1.1).
#![tactic(auto)]

mod check;
mod data;
mod laws;
mod order;
mod parts;
mod record;
mod stored;
mod threads;
mod types;
mod views;
mod wire;

pub use check::{DataFault, check_rdata};
pub use data::{minimum_of, number_of_bytes, target_of};
pub use laws::{
    data_are_laid_once, data_fail_once, names_agree_with_parts, names_in_data_are_folded,
    rows_are_ordered, stored_data_are_spelled_once, valid_data_are_laid, views_are_one,
};
pub use order::{
    bytes_before_names, bytes_behind_names, compare_rows, names_in, row_order, same_rdata,
};
pub use parts::{Part, parts_of};
pub use record::Record;
pub use stored::stored_len;
pub use types::{
    A, AAAA, ANY, AXFR, CNAME, DHCID, HINFO, IN, MX, NS, PTR, SOA, SRV, TXT, answerable,
};
pub use views::DataView;
pub use wire::push_wire;

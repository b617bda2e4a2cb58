ghost use Rattle.std.specs.Prelude.{◌≡◌, ◌↔◌, ◌<◌, ◌-◌, not, ◌&&◌, nat_eq, nat_le, nat_lt, length, slice_index, true};
ghost use Rattle.dn_name.specs.Name.{lower_byte};
ghost use Rattle.dn_rdata.specs.Record.{bytes_before_names, bytes_behind_names, bytes_cmp, data_order, folded, names_in};
ghost use Rattle.dn_rdata.specs.Rows.{field_order, is_same_data, row_order};

use crate::record::Record;
use crate::types::{CNAME, MX, NS, PTR, SOA, SRV};
use std::cmp::Ordering;

/// How many names the data of a type holds. Each takes two bytes more in a stored record than on the wire.
pub fn names_in(rtype: u16) -> usize
    ensures { result ≡ names_in rtype }
{
    match rtype {
        SOA => 2,
        NS | CNAME | PTR | MX | SRV => 1,
        _ => 0,
    }
}

/// How many bytes stand before the names in the data of a type.
pub fn bytes_before_names(rtype: u16) -> usize
    ensures { result ≡ bytes_before_names rtype }
{
    match rtype {
        MX => 2,
        SRV => 6,
        _ => 0,
    }
}

/// How many bytes stand behind the names in the data of a type.
pub fn bytes_behind_names(rtype: u16) -> usize
    ensures { result ≡ bytes_behind_names rtype }
{
    match rtype {
        SOA => 20,
        _ => 0,
    }
}

fn is_in_names(rtype: u16, len: usize, at: usize) -> bool
    ensures { result ≡ (not (nat_eq (names_in rtype) 0) && nat_le (bytes_before_names rtype) at && nat_lt at (len - bytes_behind_names rtype)) }
{
    names_in(rtype) != 0
        && bytes_before_names(rtype) <= at
        && at < len.saturating_sub(bytes_behind_names(rtype))
}

fn lower_byte(byte: u8) -> u8
    ensures { result ≡ lower_byte byte }
{
    match byte {
        b'A'..=b'Z' => byte + 32,
        _ => byte,
    }
}

fn folded_byte(rtype: u16, rdata: &[u8], at: usize) -> u8
    requires { at < length rdata.now }
    ensures { result ≡ slice_index (folded rtype rdata.now) at }
{
    let byte = rdata[at];
    if is_in_names(rtype, rdata.len(), at) {
        lower_byte(byte)
    } else {
        byte
    }
}

fn compare_data(left_type: u16, left: &[u8], right_type: u16, right: &[u8]) -> Ordering
    ensures { result ≡ bytes_cmp (folded left_type left.now) (folded right_type right.now) }
{
    for at in 0..left.len().min(right.len()) {
        let byte = folded_byte(left_type, left, at);
        let other = folded_byte(right_type, right, at);
        if byte < other {
            return Ordering::Less;
        }
        if other < byte {
            return Ordering::Greater;
        }
    }
    left.len().cmp(&right.len())
}

/// The order of records by type, and then by their data with the names in it in lower case (RFC 2136 1.1.1).
pub fn compare_rows(left: &Record, right: &Record) -> Ordering
    ensures { result ≡ data_order left.now right.now }
{
    let data = compare_data(
        left.rtype,
        left.rdata.as_slice(),
        right.rtype,
        right.rdata.as_slice(),
    );
    left.rtype.cmp(&right.rtype).then(data)
}

/// Whether two data of a type are the same once the letters of the names in them, and of nothing else, are in lower case
/// (RFC 2136 1.1.1, RFC 4343). It takes no memory.
pub fn same_rdata(rtype: u16, left: &[u8], right: &[u8]) -> bool
    ensures exact { result ≡ is_same_data rtype left.now right.now }
    ensures meaning { (result ≡ true) ↔ (folded rtype left.now ≡ folded rtype right.now) }
{
    compare_data(rtype, left, rtype, right).is_eq()
}

fn compare_fields(left: &Record, right: &Record) -> Ordering
    ensures { result ≡ field_order left.now right.now }
{
    let times = left.ttl.cmp(&right.ttl).then(
        left.reserved
            .cmp(&right.reserved)
            .then(left.hour.cmp(&right.hour)),
    );
    let marks = left
        .flags
        .cmp(&right.flags)
        .then(left.serial.cmp(&right.serial).then(times));
    left.rank.cmp(&right.rank).then(marks)
}

/// The order of whole records: that of [`compare_rows`], then by rank, flags, serial, time to live, reserved field and hour,
/// and at last by the bytes of the data as they are. Records of one place in it are equal. It takes no memory.
pub fn row_order(left: &Record, right: &Record) -> Ordering
    ensures { result ≡ row_order left.now right.now }
{
    let data = compare_rows(left, right);
    let fields = compare_fields(left, right);
    let bytes = left.rdata.as_slice().cmp(right.rdata.as_slice());
    data.then(fields.then(bytes))
}

ghost use Rattle.std.specs.Prelude.{◌≡◌, slice_index};
ghost use Rattle.std.specs.Int.{w32, from_be_bytes};
ghost use Rattle.dn_rdata.specs.Data.{minimum_of, target_of};

use crate::order::bytes_before_names;
use crate::record::Record;
use dn_name::Name;

/// The name that the data of a record leads to: its only name, or the first of an SOA (RFC 1035 3.3).
#[tactic(auto, unfolding(crate::specs::Data::target_of))]
pub fn target_of(row: &Record) -> Option<Name>
    ensures { result ≡ target_of row.now }
{
    let rdata = row.rdata.as_slice();
    let start = bytes_before_names(row.rtype).min(rdata.len());
    let (_, names) = rdata.split_at(start);
    let (name, _) = Name::read_plain(names)?;
    Some(name)
}

// A byte, 0 behind the end.
fn byte_at(bytes: &[u8], at: usize) -> u8
    ensures { result ≡ slice_index bytes.now at }
{
    match bytes.get(at) {
        Some(byte) => *byte,
        None => 0,
    }
}

/// The number that the first four bytes are, the greatest first, with zeros behind what is shorter (RFC 1035 2.3.2).
pub fn number_of_bytes(bytes: &[u8]) -> u32
    ensures { result ≡ from_be_bytes w32 bytes.now }
{
    u32::from_be_bytes([
        byte_at(bytes, 0),
        byte_at(bytes, 1),
        byte_at(bytes, 2),
        byte_at(bytes, 3),
    ])
}

/// The last of an SOA's five numbers: for how many seconds it may be remembered that a name or type is missing
/// (RFC 2308 4).
pub fn minimum_of(rdata: &[u8]) -> u32
    ensures { result ≡ minimum_of rdata.now }
{
    let (_, last) = rdata.split_at(rdata.len().saturating_sub(4));
    number_of_bytes(last)
}

ghost use Rattle.std.specs.Prelude.{◌≡◌};
ghost use Rattle.dn_rdata.specs.Layout.{parts_of};

use crate::types::{A, AAAA, CNAME, HINFO, MX, NS, PTR, SOA, SRV, TXT};

/// A part of a record's data.
#[derive(Clone, Copy, Debug, PartialEq, Eq)]
pub enum Part {
    /// So many bytes.
    Bytes(u8),
    /// A name (RFC 1035 3.1).
    OneName,
    /// A string: a length byte, and so many bytes (RFC 1035 3.3).
    OneText,
    /// One or more strings, up to the end.
    Texts,
    /// Any bytes, up to the end.
    Rest,
}

/// The parts of which the data of a type consist, in their order on the wire (RFC 1035 3.3 and 3.4.1, RFC 3596 2.2, RFC
/// 2782). Data of any other type are any bytes (RFC 3597 3).
pub fn parts_of(rtype: u16) -> &'static [Part]
    ensures { result.now ≡ parts_of rtype }
{
    match rtype {
        0 => &[Part::Bytes(8)],
        A => &[Part::Bytes(4)],
        NS | CNAME | PTR => &[Part::OneName],
        SOA => &[Part::OneName, Part::OneName, Part::Bytes(20)],
        HINFO => &[Part::OneText, Part::OneText],
        MX => &[Part::Bytes(2), Part::OneName],
        TXT => &[Part::Texts],
        AAAA => &[Part::Bytes(16)],
        SRV => &[Part::Bytes(6), Part::OneName],
        _ => &[Part::Rest],
    }
}

ghost use Rattle.std.specs.Prelude.{◌≡◌};
ghost use Rattle.dn_rdata.specs.Types.{answerable};

/// The type of an address of IPv4 (RFC 1035 3.4.1).
pub const A: u16 = 1;

/// The type of a name server (RFC 1035 3.3.11).
pub const NS: u16 = 2;

/// The type of an alias (RFC 1035 3.3.1).
pub const CNAME: u16 = 5;

/// The type of the start of a zone (RFC 1035 3.3.13).
pub const SOA: u16 = 6;

/// The type of a pointer to a name (RFC 1035 3.3.12).
pub const PTR: u16 = 12;

/// The type of what a computer and its system are (RFC 1035 3.3.2).
pub const HINFO: u16 = 13;

/// The type of a server that takes mail (RFC 1035 3.3.9).
pub const MX: u16 = 15;

/// The type of any strings (RFC 1035 3.3.14).
pub const TXT: u16 = 16;

/// The type of an address of IPv6 (RFC 3596 2.1).
pub const AAAA: u16 = 28;

/// The type of a server of a service (RFC 2782).
pub const SRV: u16 = 33;

/// The type of who registered an address (RFC 4701).
pub const DHCID: u16 = 49;

/// The type of a question for a transfer of the zone (RFC 5936 2).
pub const AXFR: u16 = 252;

/// The type of a question for all types (RFC 1035 3.2.3).
pub const ANY: u16 = 255;

/// The class IN (RFC 1035 3.2.4).
pub const IN: u16 = 1;

/// Whether records of a type are ever put into a reply.
#[tactic(auto, unfolding(crate::specs::Types::answerable))]
pub fn answerable(rtype: u16) -> bool
    ensures { result ≡ answerable rtype }
{
    match rtype {
        A | NS | CNAME | SOA | PTR | HINFO | MX | TXT | AAAA | SRV | DHCID => true,
        _ => false,
    }
}

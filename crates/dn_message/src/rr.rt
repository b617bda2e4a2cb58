use dn_io::List;
use dn_name::Name;

/// A resource record of a message (RFC 1035 4.1.3).
#[derive(Drop)]
pub struct Rr {
    pub name: Name,
    pub rtype: u16,
    pub rclass: u16,
    /// The time to live, in seconds.
    pub ttl: u32,
    /// The data on the wire, names without pointers.
    pub rdata: List<u8>,
}

//! Which kind of message bytes are.

ghost use Rattle.std.specs.Prelude.{◌≡◌};
ghost use Rattle.dn_message.specs.Kind.{kind_of};

/// The kind of a message, by its header alone (RFC 1035 4.1.1).
#[derive(Clone, Copy, Debug, PartialEq, Eq)]
pub enum Kind {
    /// Nothing is answered: the bytes have no whole header, or they are a reply.
    Silent,
    /// A query: opcode 0.
    Query,
    /// A dynamic update: opcode 5 (RFC 2136 1.3).
    Update,
    /// A request of another opcode, from 1 to 15.
    Other(u8),
}

/// Which kind of message the bytes are, whatever stands behind the header.
pub fn kind_of(bytes: &[u8]) -> Kind
    ensures { result ≡ kind_of bytes.now }
{
    if bytes.len() < 12 {
        return Kind::Silent;
    }
    let flags = 256 * u16::from(bytes[2]) + u16::from(bytes[3]);
    if flags / 32768 % 2 == 1 {
        return Kind::Silent;
    }
    match flags / 2048 % 16 {
        0 => Kind::Query,
        5 => Kind::Update,
        opcode => Kind::Other(opcode as u8),
    }
}

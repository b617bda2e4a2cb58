//! Stored values: the bytes of one, and what they are.

use dn_io::List;
use dn_property::Property;
use dn_rdata::Record;

// The bytes of a stored value, of the kind that its line names.
#[derive(Drop)]
pub enum Stored {
    /// A record of a node.
    Record(List<u8>),
    /// A property of a zone.
    Property(List<u8>),
}

// A stored value.
#[derive(Drop)]
pub enum Value {
    /// A record of a node.
    Record(Record),
    /// A property of a zone.
    Property(Property),
}

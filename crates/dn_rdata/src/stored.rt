ghost use Rattle.std.specs.Prelude.{◌≡◌};
ghost use Rattle.dn_rdata.specs.Record.{stored_size};

use crate::order::names_in;
use crate::record::Record;

// The bytes of a stored record's header (MS-DNSP 2.3.2.2).
const HEADER_LEN: usize = 24;

/// How many bytes a record takes as it is stored (MS-DNSP 2.3.2.2): a header of 24, and its data, whose names have two bytes
/// more each than on the wire. It takes no memory.
pub fn stored_len(item: &Record) -> usize
    ensures { result ≡ stored_size item.now }
{
    HEADER_LEN + item.rdata.as_slice().len() + 2 * names_in(item.rtype)
}

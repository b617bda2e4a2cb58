ghost use Rattle.std.specs.Prelude.{◌≡◌, ◌≤◌, ◌++◌, length, OnErr, OnOk};
ghost use Rattle.dn_name.specs.Name.{IsName, wire_of};

use dn_io::{List, OutOfMemory};
use dn_name::{Name, NoRoom};

/// Adds the name's bytes on the wire at the end (RFC 1035 3.1).
///
/// # Errors
/// `OutOfMemory`; the list is then as before.
pub fn push_wire(out: &mut List<u8>, name: &Name) -> Result<(), OutOfMemory>
    ensures bytes { OnOk result (out.new ≡ out.old ++ wire_of name.now) }
    ensures kept { OnErr result (out.new ≡ out.old) }
    ensures most { length (wire_of name.now) ≤ 255 }
    ensures named { IsName name.now }
{
    let mut wire = [0u8; 255];
    let len = name.wire_len();
    match name.write_wire(&mut wire, 0) {
        Ok(_) => out.extend(&wire[..len]),
        Err(NoRoom) => unreachable!(),
    }
}

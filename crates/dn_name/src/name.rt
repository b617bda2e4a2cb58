ghost use Rattle.std.specs.Prelude.{◌≡◌, [], ◌∷◌, ◌++◌, length, nat_le, if◌then◌else◌, None, Some};
ghost use Rattle.dn_name.specs.Name.{Labels, IsLabel, IsName, lowered, parent_of, wire_len, wire_of};
ghost use Rattle.dn_name.specs.Walk.{IsWhole};
ghost use Rattle.dn_name.specs.Wire.{labels_in};

use crate::wire::split_label;
use std::marker::Model;

/// A domain name, as contracts see it the list of its labels from the first to the one below the root; the root has
/// none. It keeps the spelling of its letters; names that differ in case alone are the same (RFC 4343).
#[derive(Clone, Copy)]
pub struct Name {
    // Before the bytes: with the first of them, it is what a comparison reads.
    len: u8,
    wire: [u8; 255],
}

impl Model for Name {
    ghost use Rattle.dn_name.specs.Name.{Labels, wire_len};

    ghost Value = { Labels };

    ghost use Rattle.dn_name.specs.Wire.{IsWire, labels_in, padded, wire_again};

    ghost view = { λ name. labels_in 128 name.wire };

    ghost invariant = { IsWire };

    ghost inverse = { λ labels. record { wire = padded labels; len = wire_len labels } };

    ghost inverse_ok = { wire_again };
}

impl Name {
    /// The name without labels.
    pub fn root() -> Name
        ensures { result ≡ [] }
    {
        Name {
            wire: [0; 255],
            len: 1,
        }
    }

    /// How many bytes the name takes on the wire, 1 to 255 (RFC 1035 3.1).
    pub fn wire_len(&self) -> usize
        ensures len { result ≡ wire_len self.now }
        ensures name { IsName self.now }
    {
        usize::from(self.len)
    }

    /// How many labels the name has, 0 to 127.
    pub fn labels(&self) -> u8
        ensures { result ≡ length self.now }
    {
        let mut count = 0;
        let mut wire = self.wire();
        while let Some((_, rest)) = split_label(wire) {
            count += 1;
            wire = rest;
        }
        count
    }

    /// The name with its letters in lower case.
    pub fn lower(&self) -> Name
        ensures { result ≡ lowered self.now }
    {
        // A length is at most 63, so no length byte is a letter.
        let mut wire = self.wire;
        wire.make_ascii_lowercase();
        Name {
            wire,
            len: self.len,
        }
    }

    /// The name without its first label; none for the root.
    pub fn parent(&self) -> Option<Name>
        ensures { result ≡ parent_of self.now }
    {
        let (_, rest) = split_label(self.wire())?;
        Some(Name::from_wire(rest))
    }

    // The name on the wire: each label after its length, and a zero byte.
    pub(crate) fn wire(&self) -> &[u8]
        ensures wire { result.now ≡ wire_of self.now }
        ensures len { length result.now ≡ wire_len self.now }
        ensures name { IsName self.now }
    {
        &self.wire[..usize::from(self.len)]
    }

    // The name with a label more below the root; none where it would pass 255 bytes.
    pub(crate) fn pushed(&self, label: &[u8]) -> Option<Name>
        requires { IsLabel label.now }
        ensures { result ≡ (if nat_le (wire_len (self.now ++ label.now ∷ [])) 255 then Some (self.now ++ label.now ∷ []) else None) }
    {
        let start = usize::from(self.len);
        let end = start + label.len();
        if end > 254 {
            return None;
        }
        let mut wire = self.wire;
        wire[start - 1] = label.len() as u8;
        wire[start..end].copy_from_slice(label);
        Some(Name {
            wire,
            len: end as u8 + 1,
        })
    }

    // The name that the bytes are.
    pub(crate) fn from_wire(bytes: &[u8]) -> Name
        requires { IsWhole bytes.now }
        ensures { result ≡ labels_in 128 bytes.now }
    {
        let zeros = Name::root();
        let mut wire = zeros.wire;
        wire[..bytes.len()].copy_from_slice(bytes);
        Name {
            wire,
            len: bytes.len() as u8,
        }
    }
}

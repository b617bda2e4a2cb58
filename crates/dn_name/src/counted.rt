//! Counted names, as they stand in stored values (MS-DNSP 2.2.2.2.2).

ghost use Rattle.std.specs.Prelude.{◌≡◌, ◌↔◌, ℕ, ◌+◌, ◌^◌, ◌<◌, ◌≤◌, ◌∷◌, ◌++◌, length, take, drop, IfNone, IfOk, IfSome, IsOk, OnErr};
ghost use Rattle.dn_name.specs.Counted.{AreCounts, Counted, counted_of};
ghost use Rattle.dn_name.specs.Exact.{Exact};
ghost use Rattle.dn_name.specs.Name.{Labels, IsName, wire_len};

use crate::error::{NameError, NameFault, NoRoom};
use crate::name::Name;

impl Name {
    /// Reads the counted name at a place, and answers the place behind it (MS-DNSP 2.2.2.2.2). In this project's profile the
    /// zero byte that ends a name is counted: the root's is `01 00 00`, so no length is 0 and each name has one spelling.
    ///
    /// # Errors
    /// Exactly where no counted name stands there. The fault is the first one: of the name first, and then of what is said
    /// of its bytes and of its labels.
    pub fn read_count(bytes: &[u8], at: usize) -> Result<(Name, usize), NameError>
        requires { at ≤ length bytes.now }
        ensures exact { Exact (λ (found : Labels × ℕ). Counted bytes.now at found.0 found.1) result }
        ensures within { IfOk result (λ found. found.1 ≤ length bytes.now) }
    {
        let (_, rest) = bytes.split_at(at);
        match first_two(rest) {
            Some((len, count, rest)) => match Name::read_plain(rest) {
                Some((name, taken)) => {
                    check_counts(&name, len, count, at)?;
                    Ok((name, at + 2 + taken))
                }
                None => Err(Name::fault_of_plain(bytes, at + 2)),
            },
            None => Err(NameError {
                kind: NameFault::Short,
                place: bytes.len(),
            }),
        }
    }

    /// Writes the name as a counted name at a place of the buffer, and answers the place after it (MS-DNSP 2.2.2.2.2).
    ///
    /// # Errors
    /// `NoRoom` exactly where it would pass the buffer's end. The buffer is then unchanged.
    pub fn write_count(&self, out: &mut [u8], at: usize) -> Result<usize, NoRoom>
        ensures room { IsOk result ↔ (at + 2 + wire_len self.now ≤ length out.old) }
        ensures ok { IfOk result (λ after. (after ≡ at + 2 + wire_len self.now) × (out.new ≡ take at out.old ++ (counted_of self.now ++ drop after out.old))) }
        ensures err { OnErr result (out.new ≡ out.old) }
        ensures name { IsName self.now }
        ensures counted { IfOk result (λ after. Counted out.new at self.now after) }
    {
        let counts = [self.wire_len() as u8, self.labels()];
        let start = at.checked_add(2).ok_or(NoRoom)?;
        let after = self.write_wire(out, start)?;
        out[at..start].copy_from_slice(&counts);
        Ok(after)
    }
}

fn first_two(bytes: &[u8]) -> Option<(u8, u8, &[u8])>
    ensures found { IfSome result (λ found. bytes.now ≡ found.0 ∷ (found.1 ∷ found.2.now)) }
    ensures none { IfNone result (length bytes.now < 2) }
{
    match bytes {
        [first, second, rest @ ..] => Some((*first, *second, rest)),
        _ => None,
    }
}

// Whether a counted name says rightly how many bytes and labels it has. The place is that of its first byte.
fn check_counts(name: &Name, len: u8, count: u8, at: usize) -> Result<(), NameError>
    requires { at < 2 ^ 63 }
    ensures exact { IsOk result ↔ AreCounts name.now len count }
    ensures named { IsName name.now }
{
    let kind = NameFault::BadCount;
    if name.wire_len() != usize::from(len) {
        return Err(NameError { kind, place: at });
    }
    if name.labels() != count {
        return Err(NameError {
            kind,
            place: at + 1,
        });
    }
    Ok(())
}

//! One name or two at the front of data, counted as they are stored, and plain as they are on the wire.

ghost use Rattle.std.specs.Prelude.{◌≡◌, ◌≤◌, List as Seq, ℕ, ◌∷◌, ◌++◌, IfNone, IfSome, Some, option_map};
ghost use Rattle.dn_name.specs.Counted.{counted_of};
ghost use Rattle.dn_name.specs.Name.{IsName, Labels, wire_of};
ghost use Rattle.dn_rdata.specs.Stored.{counteds_of, wires_of};
ghost use Rattle.dn_record.specs.Names.{Begin, name_or_none};

use dn_name::Name;

// The first name, the second where there are two, and the bytes behind them.
type Found<'a> = (Name, Option<Name>, &'a [u8]);

// So many counted names at the front of the bytes; none where they don't stand there.
pub(crate) fn counted_names(bytes: &[u8], count: usize) -> Option<Found<'_>>
    requires { (1 ≤ count) × (count ≤ 2) }
    ensures found { IfSome result (λ found. Begin counteds_of count bytes.now (found.0 ∷ name_or_none found.1) found.2.now) }
    ensures none { IfNone result ((names : Seq Labels) (back : Seq ℕ) → Begin counteds_of count bytes.now names back → ⊥) }
{
    match counted_name(bytes) {
        Some((first, rest)) => {
            if count == 1 {
                return Some((first, None, rest));
            }
            match counted_name(rest) {
                Some((second, rest)) => Some((first, Some(second), rest)),
                None => None,
            }
        }
        None => None,
    }
}

// So many names without pointers at the front of the bytes; none where they don't stand there.
pub(crate) fn plain_names(bytes: &[u8], count: usize) -> Option<Found<'_>>
    requires { (1 ≤ count) × (count ≤ 2) }
    ensures found { IfSome result (λ found. Begin wires_of count bytes.now (found.0 ∷ name_or_none found.1) found.2.now) }
    ensures none { IfNone result ((names : Seq Labels) (back : Seq ℕ) → Begin wires_of count bytes.now names back → ⊥) }
{
    match plain_name(bytes) {
        Some((first, rest)) => {
            if count == 1 {
                return Some((first, None, rest));
            }
            match plain_name(rest) {
                Some((second, rest)) => Some((first, Some(second), rest)),
                None => None,
            }
        }
        None => None,
    }
}

fn counted_name(bytes: &[u8]) -> Option<(Name, &[u8])>
    ensures found { IfSome result (λ found. IsName found.0 × (bytes.now ≡ counted_of found.0 ++ found.1.now)) }
    ensures only { (name : Labels) (back : Seq ℕ) → IsName name → bytes.now ≡ counted_of name ++ back → option_map {U = Labels × Seq ℕ} (λ found. (found.0, found.1.now)) result ≡ Some (name, back) }
{
    match Name::read_count(bytes, 0) {
        Ok((name, next)) => {
            let (_, rest) = bytes.split_at(next);
            Some((name, rest))
        }
        Err(_) => None,
    }
}

fn plain_name(bytes: &[u8]) -> Option<(Name, &[u8])>
    ensures found { IfSome result (λ found. IsName found.0 × (bytes.now ≡ wire_of found.0 ++ found.1.now)) }
    ensures only { (name : Labels) (back : Seq ℕ) → IsName name → bytes.now ≡ wire_of name ++ back → option_map {U = Labels × Seq ℕ} (λ found. (found.0, found.1.now)) result ≡ Some (name, back) }
{
    let (name, len) = Name::read_plain(bytes)?;
    let (_, rest) = bytes.split_at_checked(len)?;
    Some((name, rest))
}

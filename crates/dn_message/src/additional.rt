//! The additional records of a query, whose data may be any bytes.

ghost use Rattle.std.specs.Prelude.{◌≡◌, ℕ, ◌+◌, ◌≤◌, false, length, None, IfOk};
ghost use Rattle.dn_name.specs.Exact.{Exact};
ghost use Rattle.dn_message.specs.Reading.{Completes, Sees, saw};

use crate::error::{FormError, FormFault, trailing};
use crate::query::Opt;
use crate::record::{pass_record, type_at};

// What was seen of additional records: the OPT record, and whether one of them signs the message.
#[derive(Clone, Copy)]
pub(crate) struct Seen {
    pub(crate) opt: Option<Opt>,
    pub(crate) signed: bool,
}

// Reads so many records from a place on, behind which the message has no byte.
pub(crate) fn read_additional(bytes: &[u8], at: usize, count: u16) -> Result<Seen, FormError>
    requires { at ≤ length bytes.now }
    ensures { Exact (Completes bytes.now count at (record { opt = None; signed = false })) result }
{
    let mut seen = Seen {
        opt: None,
        signed: false,
    };
    let mut place = at;
    for _ in 0..count {
        (seen, place) = see(bytes, place, seen)?;
    }
    if place < bytes.len() {
        return Err(trailing(place));
    }
    Ok(seen)
}

// Reads one record, and answers what was seen then and the place behind it.
fn see(bytes: &[u8], at: usize, seen: Seen) -> Result<(Seen, usize), FormError>
    requires { at ≤ length bytes.now }
    ensures sees { Sees bytes.now at seen result }
    ensures within { IfOk result (λ found. found.1 ≤ length bytes.now) }
{
    match pass_record(bytes, at) {
        Ok((head, next)) => match saw(seen, head.rtype, head.rclass, head.ttl) {
            Some(seen) => Ok((seen, next)),
            None => Err(second_opt(at)),
        },
        Err(error) => Err(fault_of_cut_record(bytes, at, seen, error)),
    }
}

// What was seen, with one record more; none at a second OPT record.
fn saw(seen: Seen, rtype: u16, rclass: u16, ttl: u32) -> Option<Seen>
    ensures { result ≡ saw seen rtype rclass ttl }
{
    match rtype {
        41 if seen.opt.is_some() => None,
        41 => Some(Seen {
            opt: Some(Opt {
                size: rclass,
                version: (ttl / 65536 % 256) as u8,
            }),
            signed: seen.signed,
        }),
        _ => Some(Seen {
            opt: seen.opt,
            signed: seen.signed || rtype == 250,
        }),
    }
}

// The fault of a record that can't be read: that it is a second OPT record, which its type says, comes before a cut
// behind the type.
fn fault_of_cut_record(bytes: &[u8], at: usize, seen: Seen, error: FormError) -> FormError
    requires { at ≤ length bytes.now }
{
    match type_at(bytes, at) {
        Some(41) if seen.opt.is_some() => second_opt(at),
        _ => error,
    }
}

fn second_opt(at: usize) -> FormError {
    FormError {
        place: at,
        kind: FormFault::TwoOpts,
    }
}

//! Queries as bytes.

ghost use Rattle.std.specs.Prelude.{◌≡◌, ◌↔◌, ◌+◌, ◌<◌, ◌≤◌, ◌++◌, false, length, take, drop, IfOk, IfSome, IsOk, OnErr};
ghost use Rattle.dn_name.specs.Name.{IsName, wire_len, wire_of};
ghost use Rattle.dn_message.specs.declared.kind.Kind.TheVariants as kinds;
ghost use Rattle.dn_message.specs.Kind.{kind_of};
ghost use Rattle.dn_message.specs.Query.{IsQuery};
ghost use Rattle.dn_message.specs.Writing.{Appends, header_bytes, kind_bytes, opt_bytes, query_bytes};

use crate::query::{Opt, Query};
use dn_name::{Name, NoRoom};

/// Writes a query at the front of the buffer, and answers how many bytes it takes, 282 at most; the bytes behind stay. Flags
/// other than RD are zero, and the OPT record, where there is one, has the root's name and no data (RFC 6891 6.1.2).
///
/// # Errors
/// `NoRoom` exactly where the query doesn't fit into the buffer. The buffer is then unchanged.
pub fn write_query(query: &Query, out: &mut [u8]) -> Result<usize, NoRoom>
    requires { query.now.signed ≡ false }
    ensures most { length (query_bytes query.now) ≤ 282 }
    ensures room { IsOk result ↔ (length (query_bytes query.now) ≤ length out.old) }
    ensures appends { IfOk result (λ len. Appends 0 out.old (query_bytes query.now) len out.new) }
    ensures read_back { IfOk result (λ len. IsQuery (take len out.new) query.now) }
    ensures kind { IfOk result (λ len. kind_of (take len out.new) ≡ kinds.Query) }
    ensures err { OnErr result (out.new ≡ out.old) }
{
    if query_len(query) > out.len() {
        return Err(NoRoom);
    }
    Ok(put_query(query, out))
}

fn query_len(query: &Query) -> usize
    ensures len { result ≡ length (query_bytes query.now) }
    ensures most { result ≤ 282 }
    ensures named { IsName query.now.name }
{
    let len = query.name.wire_len();
    match query.opt {
        Some(_) => len + 27,
        None => len + 16,
    }
}

fn put_query(query: &Query, out: &mut [u8]) -> usize
    requires { length (query_bytes query.now) ≤ length out.old }
    ensures appends { Appends 0 out.old (query_bytes query.now) result out.new }
    ensures small { IfSome query.now.opt (λ opt. opt.version < 256) }
{
    let at = put(out, 0, &bytes_of_header(query.id, query.rd, query.opt));
    let at = put_name(out, at, &query.name);
    let at = put(out, at, &bytes_of_kind(query.qtype, query.qclass));
    match query.opt {
        Some(opt) => put(out, at, &bytes_of_opt(opt)),
        None => at,
    }
}

// The header, with one question and an additional record where there is an OPT record.
fn bytes_of_header(id: u16, rd: bool, opt: Option<Opt>) -> [u8; 12]
    ensures { result ≡ header_bytes id rd opt }
{
    let additional = match opt {
        Some(_) => 1,
        None => 0,
    };
    let [high, low] = id.to_be_bytes();
    [high, low, u8::from(rd), 0, 0, 1, 0, 0, 0, 0, 0, additional]
}

// The type and the class of the question.
pub(crate) fn bytes_of_kind(qtype: u16, qclass: u16) -> [u8; 4]
    ensures { result ≡ kind_bytes qtype qclass }
{
    let [type_high, type_low] = qtype.to_be_bytes();
    let [class_high, class_low] = qclass.to_be_bytes();
    [type_high, type_low, class_high, class_low]
}

// The OPT record, with its name.
fn bytes_of_opt(opt: Opt) -> [u8; 11]
    ensures bytes { result ≡ opt_bytes opt }
    ensures small { opt.version < 256 }
{
    let [high, low] = opt.size.to_be_bytes();
    [0, 0, 41, high, low, 0, opt.version, 0, 0, 0, 0]
}

pub(crate) fn put_name(out: &mut [u8], at: usize, name: &Name) -> usize
    requires { at + wire_len name.now ≤ length out.old }
    ensures appends { Appends at out.old (wire_of name.now) result out.new }
    ensures len { length out.new ≡ length out.old }
{
    match name.write_wire(out, at) {
        Ok(next) => next,
        Err(_) => unreachable!(),
    }
}

pub(crate) fn put(out: &mut [u8], at: usize, piece: &[u8]) -> usize
    requires { at + length piece.now ≤ length out.old }
    ensures appends { Appends at out.old piece.now result out.new }
    ensures len { length out.new ≡ length out.old }
{
    copy_into(out, at, piece);
    at + piece.len()
}

fn copy_into(out: &mut [u8], at: usize, piece: &[u8])
    requires { at + length piece.now ≤ length out.old }
    ensures { out.new ≡ take at out.old ++ piece.now ++ drop (at + length piece.now) out.old }
{
    let next = at + piece.len();
    out[at..next].copy_from_slice(piece);
}

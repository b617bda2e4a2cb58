//! Queries (RFC 1035 4.1, RFC 6891 6.1).

ghost use Rattle.std.specs.Prelude.{◌≡◌, IfErr};
ghost use Rattle.std.specs.Result.{result_ok};
ghost use Rattle.dn_name.specs.Exact.{Exact};
ghost use Rattle.dn_message.specs.Header.{header_len};
ghost use Rattle.dn_message.specs.NameFaults.{HasNoName, HasQueryHeader, IsFaultOfName};
ghost use Rattle.dn_message.specs.Query.{IsQuery};
ghost use Rattle.dn_message.specs.QueryOf.{query_of};

use crate::additional::read_additional;
use crate::error::FormError;
use crate::header::read_query_header;
use crate::question::read_type_and_class;
use crate::record::read_name;
use dn_name::Name;

/// What an OPT record says (RFC 6891 6.1.3): the longest reply that is taken, in bytes, and the version of EDNS.
#[derive(Clone, Copy, Debug, PartialEq, Eq)]
pub struct Opt {
    pub size: u16,
    pub version: u8,
}

/// A query: one question, and what its additional records say.
#[derive(Clone, Copy)]
pub struct Query {
    /// The number that the reply repeats.
    pub id: u16,
    /// Whether recursion is desired (RD), which the reply repeats.
    pub rd: bool,
    pub name: Name,
    pub qtype: u16,
    pub qclass: u16,
    /// What the OPT record says, where there is one.
    pub opt: Option<Opt>,
    /// Whether there is a record of type TSIG (RFC 8945), which signs the message.
    pub signed: bool,
}

/// Reads a query from all bytes of a message. Of its flags it takes RD; `kind_of` tells whether it is a query by the
/// others.
///
/// # Errors
/// Exactly where the bytes are no query. The fault is the first one in the order of the fields: Short, at the message's
/// end, for a field that is cut; Name with what is wrong first with a name, and its place; QuestionCount at 4 where there
/// isn't one question; SectionCount at 6 or 8 where there are records of answer or authority; TwoOpts at the first byte of
/// a second OPT record; Trailing at the first byte behind the last record. The contract says kind and place where the
/// header is a query's and the question's name is at fault.
pub fn read_query(bytes: &[u8]) -> Result<Query, FormError>
    ensures exact { Exact (IsQuery bytes.now) result }
    ensures value { result_ok result ≡ query_of bytes.now }
    ensures fault { IfErr result (λ error. HasQueryHeader bytes.now → HasNoName bytes.now header_len → IsFaultOfName bytes.now header_len error) }
{
    let header = read_query_header(bytes)?;
    let (name, behind) = read_name(bytes, 12)?;
    let (qtype, qclass) = read_type_and_class(bytes, behind)?;
    let seen = read_additional(bytes, behind + 4, header.additional)?;
    Ok(Query {
        id: header.id,
        rd: header.flags / 256 % 2 == 1,
        name,
        qtype,
        qclass,
        opt: seen.opt,
        signed: seen.signed,
    })
}

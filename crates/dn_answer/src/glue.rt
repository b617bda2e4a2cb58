ghost use Rattle.std.specs.Prelude.{◌≡◌, ◌&&◌, ◌++◌, find, map, option_copied, IfOk, OnOk};
ghost use Rattle.std.specs.List.{list_any};
ghost use Rattle.dn_name.specs.Name.{is_same};
ghost use Rattle.dn_answer.specs.Glue.{addresses, glue, glue_rr, is_row, names_server, not_put, server_of};
ghost use Rattle.dn_answer.specs.Answer.{owner_of};
ghost use Rattle.dn_answer.specs.Glue.Turn.{PutsGlue};

use crate::lookups::Rows;
use crate::rows::of_type;
use dn_io::{Duplicate, List, OutOfMemory};
use dn_message::Rr;
use dn_name::Name;
use dn_rdata::{A, AAAA, IN, MX, NS, SRV, target_of};
use dn_store::Owned;
use std::alloc::Global;

// A name as the question or an alias spelled it.
fn spelling_of<'a>(spelled: &'a [Name], name: &Name) -> Option<&'a Name>
    ensures { option_copied result ≡ find (λ met. is_same met name.now) spelled.now }
{
    spelled.iter().find(|met| met.same(name))
}

// The owner of a row: as the question or an alias spelled the name, and else as it stands.
#[tactic(auto, unfolding(crate::specs::Answer::owner_of))]
pub fn owner_of(spelled: &[Name], name: &Name) -> Name
    ensures { result ≡ owner_of spelled.now name.now }
{
    *spelling_of(spelled, name).unwrap_or(name)
}

fn names_server(rtype: u16) -> bool
    ensures { result ≡ names_server rtype }
{
    matches!(rtype, NS | MX | SRV)
}

// The server that a row names, where its addresses can be in the zone.
#[tactic(auto, unfolding(crate::specs::Glue::server_of))]
fn server_of(apex: &Name, one: &Owned) -> Option<Name>
    ensures { result ≡ server_of apex.now one.now }
{
    if !names_server(one.row.rtype) {
        return None;
    }
    match target_of(&one.row) {
        Some(name) if name.is_under(apex) => Some(name),
        _ => None,
    }
}

// The addresses of a name, A before AAAA.
#[tactic(auto, unfolding(crate::specs::Glue::addresses))]
fn addresses(alloc: Global, rows: &Rows, name: &Name) -> Result<List<Owned>, OutOfMemory>
    ensures { IfOk result (λ list. list ≡ addresses rows.now name.now) }
{
    let named = rows.of_name(alloc, name)?;
    let mut list = of_type(alloc, A, named.as_slice())?;
    let later = of_type(alloc, AAAA, named.as_slice())?;
    list.extend_copies(alloc, later.as_slice())?;
    Ok(list)
}

fn is_row(left: &Owned, right: &Owned) -> bool
    ensures { result ≡ is_row left.now right.now }
{
    left.name.same(&right.name)
        && left.row.rtype == right.row.rtype
        && left.row.rdata.as_slice() == right.row.rdata.as_slice()
}

fn is_put(put: &[Owned], one: &Owned) -> bool
    ensures { result ≡ list_any (is_row one.now) put.now }
{
    put.iter().any(|other| is_row(one, other))
}

// Those of the rows that aren't put yet.
#[tactic(auto, unfolding(crate::specs::Glue::not_put))]
fn not_put(alloc: Global, put: &[Owned], rows: &[Owned]) -> Result<List<Owned>, OutOfMemory>
    ensures { IfOk result (λ list. list ≡ not_put put.now rows.now) }
{
    let mut list = List::new(alloc);
    for one in rows {
        if !is_put(put, one) {
            list.push(one.copy(alloc)?)?;
        }
    }
    Ok(list)
}

#[tactic(auto, unfolding(crate::specs::Answer::owner_of))]
fn glue_rr(alloc: Global, spelled: &[Name], server: &Name, one: &Owned) -> Result<Rr, OutOfMemory>
    ensures { IfOk result (λ row. row ≡ glue_rr spelled.now server.now one.now) }
{
    Ok(Rr {
        name: owner_of(spelled, server),
        rtype: one.row.rtype,
        rclass: IN,
        ttl: one.row.ttl,
        rdata: one.row.rdata.copy(alloc)?,
    })
}

// Adds rows for the addresses of a server at the end.
fn push_glue(
    alloc: Global,
    list: &mut List<Rr>,
    spelled: &[Name],
    server: &Name,
    new: &[Owned],
) -> Result<(), OutOfMemory>
    ensures { OnOk result (list.new ≡ list.old ++ map (glue_rr spelled.now server.now) new.now) }
{
    for one in new {
        list.push(glue_rr(alloc, spelled, server, one)?)?;
    }
    Ok(())
}

// Adds the addresses of a server that aren't put yet to the additional rows and to the rows that are put.
fn put_server(
    alloc: Global,
    list: &mut List<Rr>,
    put: &mut List<Owned>,
    spelled: &[Name],
    rows: &Rows,
    server: &Name,
) -> Result<(), OutOfMemory>
    ensures list { OnOk result (list.new ≡ list.old ++ map (glue_rr spelled.now server.now) (not_put put.old (addresses rows.now server.now))) }
    ensures put { OnOk result (put.new ≡ put.old ++ not_put put.old (addresses rows.now server.now)) }
{
    let found = addresses(alloc, rows, server)?;
    let new = not_put(alloc, put.as_slice(), found.as_slice())?;
    push_glue(alloc, list, spelled, server, new.as_slice())?;
    put.extend_copies(alloc, new.as_slice())
}

// Adds what a row that is put gives to the additional rows and to the rows that are put.
fn put_glue(
    alloc: Global,
    list: &mut List<Rr>,
    put: &mut List<Owned>,
    spelled: &[Name],
    rows: &Rows,
    apex: &Name,
    one: &Owned,
) -> Result<(), OutOfMemory>
    ensures { OnOk result (PutsGlue spelled.now rows.now (server_of apex.now one.now) list.old put.old list.new put.new) }
{
    match server_of(apex, one) {
        Some(server) => put_server(alloc, list, put, spelled, rows, &server),
        None => Ok(()),
    }
}

// The additional rows for rows that are put: for each in turn the addresses of its server that aren't put yet.
//
// # Errors
// `OutOfMemory`.
pub fn glue(
    alloc: Global,
    spelled: &[Name],
    rows: &Rows,
    apex: &Name,
    named: &[Owned],
) -> Result<List<Rr>, OutOfMemory>
    ensures { IfOk result (λ list. list ≡ glue spelled.now rows.now apex.now named.now named.now) }
{
    let mut list = List::new(alloc);
    let mut put = List::from_slice(alloc, named)?;
    for one in named {
        put_glue(alloc, &mut list, &mut put, spelled, rows, apex, one)?;
    }
    Ok(list)
}

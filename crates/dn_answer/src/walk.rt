ghost use Rattle.std.specs.Prelude.{◌≡◌, ◌<◌, filter, IfOk, IfSome};
ghost use Rattle.std.specs.List.{list_any};
ghost use Rattle.dn_name.specs.Name.{is_same};
ghost use Rattle.dn_answer.specs.Walk.{asked, behind_link, cut, ended_at, is_asked, is_cut, link, may_follow, negative, referred, stopped, walk};
ghost use Rattle.dn_rdata.specs.Types.{answerable};
ghost use Rattle.dn_rdata.specs.Data.{minimum_of};
ghost use Rattle.dn_answer.specs.Walk.Follow.{next_name};
ghost use Rattle.dn_store.specs.Rows.{of_name, of_type};

use crate::lookups::Rows;
use crate::rows::of_type;
use dn_io::{Duplicate, List, OutOfMemory};
use dn_message::Rcode;
use dn_name::Name;
use dn_rdata::{ANY, CNAME, NS, Record, SOA, answerable, minimum_of, target_of};
use dn_store::Owned;
use std::alloc::Global;

// What the walk from a question's name gives: the rows of the answer and of authority, whether it ended at a
// delegation, the code, and the names that were met, as they were spelled.
#[derive(Drop)]
pub struct Walk {
    pub answer: List<Owned>,
    pub authority: List<Owned>,
    pub refers: bool,
    pub rcode: Rcode,
    pub spelled: List<Name>,
}

// Whether a name is that of a delegation.
fn is_cut(rows: &Rows, apex: &Name, name: &Name) -> bool
    ensures { result ≡ is_cut rows.now apex.now name.now }
{
    name.is_under(apex) && !name.same(apex) && rows.has_type(NS, name)
}

// The name at which a delegation cuts the zone: of those at or above a name and below the apex, the one nearest to
// the apex that has NS rows.
fn cut(rows: &Rows, apex: &Name, name: &Name) -> Option<Name>
    ensures { result ≡ cut rows.now apex.now name.now }
{
    let parent = name.parent()?;
    if let Some(found) = cut(rows, apex, &parent) {
        return Some(found);
    }
    if is_cut(rows, apex, name) {
        Some(*name)
    } else {
        None
    }
}

// The alias at a name, where a question of the type follows it.
#[tactic(auto, unfolding(crate::specs::Walk::link))]
fn link(alloc: Global, rows: &Rows, qtype: u16, name: &Name) -> Result<Option<Owned>, OutOfMemory>
    ensures { IfOk result (λ found. found ≡ link rows.now qtype name.now) }
{
    if qtype == CNAME || qtype == ANY {
        return Ok(None);
    }
    rows.first_of(alloc, CNAME, name)
}

// Whether a question of the type is for the row.
fn is_asked(qtype: u16, one: &Owned) -> bool
    ensures { result ≡ is_asked qtype one.now }
{
    (one.row.rtype == qtype || qtype == ANY) && answerable(one.row.rtype)
}

// Copies of those of the rows that a question of the type is for.
fn asked_among(alloc: Global, qtype: u16, rows: &[Owned]) -> Result<List<Owned>, OutOfMemory>
    ensures { IfOk result (λ found. found ≡ filter (is_asked qtype) rows.now) }
{
    let mut found = List::new(alloc);
    for one in rows {
        if is_asked(qtype, one) {
            found.push(one.copy(alloc)?)?;
        }
    }
    Ok(found)
}

// The rows of a name that a question of the type is for.
#[tactic(auto, unfolding(crate::specs::Walk::asked))]
fn asked(alloc: Global, rows: &Rows, qtype: u16, name: &Name) -> Result<List<Owned>, OutOfMemory>
    ensures { IfOk result (λ found. found ≡ asked rows.now qtype name.now) }
{
    let here = rows.of_name(alloc, name)?;
    asked_among(alloc, qtype, here.as_slice())
}

// The zone's SOA beside a negative answer, with the lesser of its time to live and its minimum (RFC 2308 3).
#[tactic(auto, using(crate::proofs::WalkLemmas::negative_first), unfolding(crate::specs::Walk::negative))]
fn negative(alloc: Global, rows: &Rows, apex: &Name) -> Result<List<Owned>, OutOfMemory>
    ensures { IfOk result (λ found. found ≡ negative rows.now apex.now) }
{
    let mut found = List::new(alloc);
    if let Some(mut one) = rows.first_of(alloc, SOA, apex)? {
        one.row.ttl = one.row.ttl.min(minimum_of(one.row.rdata.as_slice()));
        found.push(one)?;
    }
    Ok(found)
}

// The walk that ends at a name that neither a delegation cuts off nor an alias leads on from.
#[tactic(auto, unfolding(crate::specs::Walk::ended_at))]
fn ended_at(
    alloc: Global,
    rows: &Rows,
    apex: &Name,
    qtype: u16,
    spelled: List<Name>,
    name: &Name,
) -> Result<Walk, OutOfMemory>
    ensures { IfOk result (λ walked. walked ≡ ended_at rows.now apex.now qtype spelled name.now) }
{
    let answer = asked(alloc, rows, qtype, name)?;
    if answer.len() > 0 {
        return Ok(Walk {
            answer,
            authority: List::new(alloc),
            refers: false,
            rcode: Rcode::NoError,
            spelled,
        });
    }
    let rcode = if rows.has_under(name) {
        Rcode::NoError
    } else {
        Rcode::NxDomain
    };
    Ok(Walk {
        answer: List::new(alloc),
        authority: negative(alloc, rows, apex)?,
        refers: false,
        rcode,
        spelled,
    })
}

// The walk that ends at a delegation.
fn referred(alloc: Global, rows: &Rows, at: &Name, spelled: List<Name>) -> Result<Walk, OutOfMemory>
    ensures { IfOk result (λ walked. walked ≡ referred (of_type 2 (of_name at.now rows.now)) spelled) }
{
    let here = rows.of_name(alloc, at)?;
    Ok(Walk {
        answer: List::new(alloc),
        authority: of_type(alloc, NS, here.as_slice())?,
        refers: true,
        rcode: Rcode::NoError,
        spelled,
    })
}

// The walk that ends behind an alias.
fn stopped(alloc: Global, spelled: List<Name>) -> Walk
    ensures { result ≡ stopped spelled }
{
    Walk {
        answer: List::new(alloc),
        authority: List::new(alloc),
        refers: false,
        rcode: Rcode::NoError,
        spelled,
    }
}

// Whether a name was met, in whatever spelling.
fn was_met(spelled: &[Name], name: &Name) -> bool
    ensures { result ≡ list_any (λ met. is_same met name.now) spelled.now }
{
    spelled.iter().any(|met| met.same(name))
}

// Whether an alias is followed to a name.
fn may_follow(apex: &Name, spelled: &[Name], name: &Name) -> bool
    ensures { result ≡ may_follow apex.now spelled.now name.now }
{
    name.is_under(apex) && !was_met(spelled, name)
}

// The name that an alias leads on to, with at most so many aliases more.
#[tactic(auto, unfolding(crate::specs::Walk::Follow::next_name))]
fn next_name(links: u8, apex: &Name, spelled: &[Name], row: &Record) -> Option<Name>
    ensures next { result ≡ next_name links apex.now spelled.now row.now }
    ensures links { IfSome result (λ _. 0 < links) }
{
    if links == 0 {
        return None;
    }
    let name = target_of(row)?;
    if may_follow(apex, spelled, &name) {
        Some(name)
    } else {
        None
    }
}

// The rest of a walk with the alias that led to it.
fn behind_link(one: Owned, rest: Walk) -> Result<Walk, OutOfMemory>
    ensures { IfOk result (λ walked. walked ≡ behind_link one rest) }
{
    let Walk {
        answer,
        authority,
        refers,
        rcode,
        spelled,
    } = rest;
    let mut rows = answer.into_vec();
    rows.insert(0, one)?;
    Ok(Walk {
        answer: List::of(rows),
        authority,
        refers,
        rcode,
        spelled,
    })
}

// The walk of a question of a type from a name on (RFC 1034 4.3.2), with at most so many aliases followed. `spelled`
// has the names met so far, this one among them.
//
// # Errors
// `OutOfMemory`.
pub fn walk_from(
    alloc: Global,
    links: u8,
    rows: &Rows,
    apex: &Name,
    qtype: u16,
    mut spelled: List<Name>,
    name: &Name,
) -> Result<Walk, OutOfMemory>
    ensures { IfOk result (λ walked. walked ≡ walk links rows.now apex.now qtype spelled name.now) }
{
    if let Some(at) = cut(rows, apex, name) {
        return referred(alloc, rows, &at, spelled);
    }
    let Some(one) = link(alloc, rows, qtype, name)? else {
        return ended_at(alloc, rows, apex, qtype, spelled, name);
    };
    let Some(next) = next_name(links, apex, spelled.as_slice(), &one.row) else {
        return behind_link(one, stopped(alloc, spelled));
    };
    spelled.push(next)?;
    let rest = walk_from(alloc, links - 1, rows, apex, qtype, spelled, &next)?;
    behind_link(one, rest)
}

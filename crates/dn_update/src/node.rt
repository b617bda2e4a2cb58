ghost use Rattle.std.specs.Prelude.{◌≡◌, ◌≤◌, ◌&&◌, not, length, IfOk};
ghost use Rattle.std.specs.List.{list_any};
ghost use Rattle.dn_update.specs.Node.{bars, has_data_of, is_alias, is_there_as, placed_row};
ghost use Rattle.dn_update.specs.Node.Places.{behind_place, comes_behind, place_of};
ghost use Rattle.dn_update.specs.Node.Added.{AddsRow};

use dn_io::{List, OutOfMemory};
use dn_rdata::{CNAME, Record, compare_rows};
use std::alloc::Global;
use std::cmp::Ordering;

fn has_data_of(row: &Record, other: &Record) -> bool
    ensures { result ≡ has_data_of row.now other.now }
{
    compare_rows(other, row) == Ordering::Equal
}

fn is_there_as(row: &Record, other: &Record) -> bool
    ensures { result ≡ is_there_as row.now other.now }
{
    has_data_of(row, other) && other.ttl == row.ttl && other.hour == row.hour
}

fn bars(row: &Record, other: &Record) -> bool
    ensures { result ≡ bars row.now other.now }
{
    (row.rtype == CNAME) != (other.rtype == CNAME)
}

fn comes_behind(row: &Record, next: &Record) -> bool
    ensures { result ≡ comes_behind row.now next.now }
{
    compare_rows(row, next) == Ordering::Greater
}

// How many rows stand before a record's place in the order of type and folded data.
fn place_of(row: &Record, rows: &[Record]) -> usize
    ensures place { result ≡ place_of row.now rows.now }
    ensures within { result ≤ length rows.now }
{
    rows.iter()
        .position(|next| !comes_behind(row, next))
        .unwrap_or(rows.len())
}

// What of the rows from a record's place on stands behind it: it replaces the one of its data.
fn behind_place<'a>(row: &Record, rows: &'a [Record]) -> &'a [Record]
    ensures { result.now ≡ behind_place row.now rows.now }
{
    match rows {
        [next, rest @ ..] if compare_rows(row, next) == Ordering::Equal => rest,
        _ => rows,
    }
}

// The rows with one placed in the order of type and folded data; it replaces the one of its data.
fn placed_row(alloc: Global, row: Record, rows: &[Record]) -> Result<List<Record>, OutOfMemory>
    ensures { IfOk result (λ list. list ≡ placed_row row rows.now) }
{
    let (before, rest) = rows.split_at(place_of(&row, rows));
    let behind = behind_place(&row, rest);
    let mut placed = List::new(alloc);
    placed.extend_copies(alloc, before)?;
    placed.push(row)?;
    placed.extend_copies(alloc, behind)?;
    Ok(placed)
}

fn is_barred(row: &Record, rows: &[Record]) -> bool
    ensures { result ≡ list_any (bars row.now) rows.now }
{
    rows.iter().any(|other| bars(row, other))
}

// Whether a row has other data.
fn is_other_there(row: &Record, rows: &[Record]) -> bool
    ensures { result ≡ list_any (λ other. not (has_data_of row.now other)) rows.now }
{
    rows.iter().any(|other| !has_data_of(row, other))
}

// Whether a record is an alias and a row has other data.
fn replaces_alias(row: &Record, rows: &[Record]) -> bool
    ensures { result ≡ (is_alias row.now && list_any (λ other. not (has_data_of row.now other)) rows.now) }
{
    row.rtype == CNAME && is_other_there(row, rows)
}

fn is_there(row: &Record, rows: &[Record]) -> bool
    ensures { result ≡ list_any (is_there_as row.now) rows.now }
{
    rows.iter().any(|other| is_there_as(row, other))
}

/// The records of a node after one is added; none where they stay the same.
pub fn with_added(
    alloc: Global,
    row: Record,
    rows: &[Record],
) -> Result<Option<List<Record>>, OutOfMemory>
    ensures { IfOk result (λ added. AddsRow added row rows.now) }
{
    if is_barred(&row, rows) {
        return Ok(None);
    }
    if replaces_alias(&row, rows) {
        return Ok(Some(placed_row(alloc, row, &[])?));
    }
    if is_there(&row, rows) {
        return Ok(None);
    }
    Ok(Some(placed_row(alloc, row, rows)?))
}

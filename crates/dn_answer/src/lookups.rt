ghost use Rattle.std.specs.Prelude.{◌≡◌, filter, IfOk, Some};
ghost use Rattle.dn_answer.specs.Below.{has_row, is_key_under};
ghost use Rattle.dn_store.specs.Rows.{first_row, has_some, of_name, of_type, rows_of};
ghost use Rattle.dn_answer.specs.Walk.{name_exists};
ghost use Rattle.dn_store.specs.Table.{is_above};
ghost use Rattle.dn_store.specs.declared.unit.UnitKey.TheVariants.{Node};

use crate::rows::{of_type, push_node};
use dn_io::{Duplicate, List, OutOfMemory};
use dn_name::Name;
use dn_store::{Owned, Table, Unit, UnitKey, rows_at, rows_in};
use std::alloc::Global;
use std::marker::Model;

// The rows of a zone, as contracts see them the list of all of them, by name and then in the order of their node. What is
// asked of them is looked up in the zone's table, at the nodes that it is about alone.
#[derive(Drop)]
pub struct Rows<'a> {
    table: &'a Table,
}

impl<'a> Model for Rows<'a> {
    ghost use Rattle.std.specs.Prelude.{List as Seq};
    ghost use Rattle.dn_store.specs.Rows.{rows_of};
    ghost use Rattle.dn_store.specs.declared.owned.Owned as rows;

    ghost Value = { Seq rows.Owned };

    ghost view = { λ rows. rows_of rows.table.now.0 };
}

// Whether a unit is a node at or below a name.
fn is_key_under(key: &UnitKey, name: &Name) -> bool
    ensures { result ≡ is_key_under key.now name.now }
{
    match key {
        UnitKey::Props => false,
        UnitKey::Node(node) => node.is_under(name),
    }
}

// Whether a unit has a row: a tombstone has none.
#[tactic(auto, using(crate::proofs::BelowLemmas::some_from))]
fn has_row(unit: &Unit) -> bool
    ensures { result ≡ has_row unit.now }
{
    !rows_in(&unit.value).is_empty()
}

// Whether a name below this one has a row. The names below one follow it in the order of names (RFC 4034 6.1), with none
// between them that isn't below it.
fn has_below(table: &Table, name: &Name) -> bool
    ensures { result ≡ name_exists (rows_of (filter (is_above (Some (Node name.now))) table.now.0)) name.now }
{
    table.facts();
    let mut after = UnitKey::Node(*name);
    while let Some(unit) = table.next_after(Some(&after)) {
        if !is_key_under(&unit.key, name) {
            return false;
        }
        if has_row(unit) {
            return true;
        }
        after = unit.key;
    }
    false
}

impl<'a> Rows<'a> {
    // The rows of a zone's table.
    pub fn of(table: &'a Table) -> Rows<'a>
        ensures { result ≡ rows_of table.now.0 }
    {
        Rows { table }
    }

    // Copies of the rows of a name.
    //
    // # Errors
    // `OutOfMemory`.
    pub fn of_name(&self, alloc: Global, name: &Name) -> Result<List<Owned>, OutOfMemory>
        ensures { IfOk result (λ found. found ≡ of_name name.now self.now) }
    {
        self.table.facts();
        let mut found = List::new(alloc);
        let Some(unit) = self.table.find(&UnitKey::Node(*name)) else {
            return Ok(found);
        };
        push_node(alloc, &mut found, unit)?;
        Ok(found)
    }

    // A copy of the first row of a type under a name.
    //
    // # Errors
    // `OutOfMemory`.
    #[tactic(auto, using(crate::proofs::LookupLemmas::first_is))]
    pub fn first_of(
        &self,
        alloc: Global,
        rtype: u16,
        name: &Name,
    ) -> Result<Option<Owned>, OutOfMemory>
        ensures { IfOk result (λ found. found ≡ first_row (of_type rtype (of_name name.now self.now))) }
    {
        let here = self.of_name(alloc, name)?;
        let found = of_type(alloc, rtype, here.as_slice())?;
        match found.get(0) {
            Some(one) => Ok(Some(one.copy(alloc)?)),
            None => Ok(None),
        }
    }

    // Whether a name has rows of a type.
    pub fn has_type(&self, rtype: u16, name: &Name) -> bool
        ensures { result ≡ has_some (of_type rtype (of_name name.now self.now)) }
    {
        self.table.facts();
        rows_at(self.table, &UnitKey::Node(*name))
            .iter()
            .any(|row| row.rtype == rtype)
    }

    // Whether a name or one below it has a row, of any type.
    pub fn has_under(&self, name: &Name) -> bool
        ensures { result ≡ name_exists self.now name.now }
    {
        self.table.facts();
        let here = rows_at(self.table, &UnitKey::Node(*name));
        !here.is_empty() || has_below(self.table, name)
    }
}

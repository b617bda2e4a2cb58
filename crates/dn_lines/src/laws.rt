//! What holds of what lines of stored values give.

ghost use Rattle.dn_lines.specs.Said.{IsSaidOnce};
ghost use Rattle.dn_lines.specs.ValueLaws.{Laws, PackedIsShown, ShownIsPacked};
ghost use Rattle.dn_lines.specs.Values.{IsPacked, IsShown};

use dn_property::{
    properties_are_in_range, properties_are_spelled_once, properties_have_one_spelling,
};
use dn_record::{records_are_in_range, stored_records_are_spelled_once};

// The laws of stored values of the crates below, handed on as one.
fn values_are_one()
    ensures { Laws }
{
    stored_records_are_spelled_once();
    dn_record::first_faults_are_one();
    properties_are_spelled_once();
    properties_have_one_spelling();
    dn_property::first_faults_are_one();
    records_are_in_range();
    properties_are_in_range();
}

/// The law that what `show` gives for an input is one text, with one end. It stands in the contract, and nothing runs.
pub fn shown_texts_are_one()
    ensures { IsSaidOnce IsShown }
{
    values_are_one();
}

/// The law that what `pack` gives for an input is one text, with one end. It stands in the contract, and nothing runs.
pub fn packed_texts_are_one()
    ensures { IsSaidOnce IsPacked }
{
    values_are_one();
}

/// The law that the line which is shown of a value's bytes is packed into the line of these bytes, with its hex digits in lower
/// case. It stands in the contract, and nothing runs.
pub fn shown_values_are_packed()
    ensures { ShownIsPacked }
{
    values_are_one();
}

/// The law that the line of a value's bytes is shown as the printed line of this value. It stands in the contract, and nothing
/// runs.
pub fn packed_values_are_shown()
    ensures { PackedIsShown }
{}

//! Laws of how data lie in a message (RFC 1035 3.3 and 4.1.4), of their stored form (MS-DNSP 2.2.2.2.4), of the order of
//! records and of the parts of their data.

ghost use Rattle.std.specs.Prelude.{ℕ};
ghost use Rattle.dn_rdata.specs.Folding.{NamesAreFolded, OthersAreFolded};
ghost use Rattle.dn_rdata.specs.Laid.{IsLaidOnce, LaidIsWire, WireIsLaid};
ghost use Rattle.dn_rdata.specs.Layout.{DataFailsOnce, NamesAgree};
ghost use Rattle.dn_rdata.specs.Rows.{RowsAreOrdered, RowsDiffer, RowsStay};
ghost use Rattle.dn_rdata.specs.Stored.{DataAreStored, StoredIsData, StoredIsReadOnce, StoredIsSized, StoredIsWrittenOnce};
ghost use Rattle.dn_rdata.specs.Views.{ViewsAreOne};

use dn_name::{names_are_spelled_once, plain_faults_are_one};

/// Data that are valid for their type lie in any message wherever their bytes stand, so that what a writer put there is
/// read back; and what lies in a message is valid for its type once its names are written out.
pub fn valid_data_are_laid()
    ensures wire { WireIsLaid }
    ensures back { LaidIsWire }
{}

/// Between two places of a message lie the data of a type at most once.
pub fn data_are_laid_once()
    ensures { IsLaidOnce }
{
    names_are_spelled_once()
}

/// Bytes that aren't data of a type go wrong at one place.
pub fn data_fail_once()
    ensures { DataFailsOnce }
{
    plain_faults_are_one()
}

/// What is said of the names in a type's data, how many there are and what stands before and behind them, agrees with the
/// table of its parts.
pub fn names_agree_with_parts()
    ensures { (rtype : ℕ) → NamesAgree rtype }
{}

/// Valid data have one stored form, and stored data are the form of one rdata at most, which is valid.
pub fn stored_data_are_spelled_once()
    ensures read { StoredIsReadOnce }
    ensures written { StoredIsWrittenOnce }
    ensures valid { StoredIsData }
    ensures any { DataAreStored }
    ensures sized { StoredIsSized }
{}

/// Folding data puts the names in them into lower case and leaves all other bytes as they are; data of a type without names
/// stay as they are (RFC 4343).
pub fn names_in_data_are_folded()
    ensures names { NamesAreFolded }
    ensures others { OthersAreFolded }
{}

/// The order of whole records is an order: it turns round with its records, it goes on from record to record, and records of
/// one place in it are equal.
pub fn rows_are_ordered()
    ensures order { RowsAreOrdered }
    ensures differ { RowsDiffer }
    ensures stay { RowsStay }
{}

/// Of a record there is one view: any two are of one kind, with the same numbers and the same bytes of each part.
pub fn views_are_one()
    ensures { ViewsAreOne }
{}

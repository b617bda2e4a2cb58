//! The laws of stored records.

ghost use Rattle.dn_record.specs.FirstFault.{FirstFaultIsOne};
ghost use Rattle.dn_record.specs.Layout.{RecordIsReadOnce, RecordIsWrittenOnce};
ghost use Rattle.dn_record.specs.Ranges.{RecordsAreInRange};

/// Bytes are one stored record at most, and a record has one spelling.
pub fn stored_records_are_spelled_once()
    ensures read { RecordIsReadOnce }
    ensures written { RecordIsWrittenOnce }
{}

/// What is wrong first with bytes that are no stored record has one kind and one place, and such bytes are none.
pub fn first_faults_are_one()
    ensures { FirstFaultIsOne }
{}

/// The record that bytes are has numbers within their widths and bytes as data, and fits.
pub fn records_are_in_range()
    ensures { RecordsAreInRange }
{}

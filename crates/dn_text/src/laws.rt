//! Laws of text: what was printed is read back. They stand in the contracts, and nothing runs.

ghost use Rattle.dn_text.specs.Laws.{DataAreReadBack, DigitsAreReadBack, LongAddressesAreReadBack, StringsAreReadBack};
ghost use Rattle.dn_text.specs.PropertyLines.{PropertiesAreReadBack};
ghost use Rattle.dn_text.specs.RecordLines.{RecordsAreReadBack};

/// Reading the text of strings gives the strings.
pub fn strings_are_read_back()
    ensures { StringsAreReadBack }
{}

/// Reading bytes that were printed as hex digits, or as `-` where there are none, gives the bytes.
pub fn digits_are_read_back()
    ensures { DigitsAreReadBack }
{}

/// Reading the text of an address of IPv6 gives the address.
pub fn long_addresses_are_read_back()
    ensures { LongAddressesAreReadBack }
{}

/// Reading the text of valid data of any type, as [`crate::row_line`] prints it and [`crate::read_rdata`] reads it, gives the data.
pub fn data_are_read_back()
    ensures { DataAreReadBack }
{}

/// Reading the line of a stored property gives the property.
pub fn properties_are_read_back()
    ensures { PropertiesAreReadBack }
{}

/// Reading the line of a stored record with valid data gives the record.
pub fn records_are_read_back()
    ensures { RecordsAreReadBack }
{}

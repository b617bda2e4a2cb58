//! Laws of words: what was printed is read back. They stand in the contracts, and nothing runs.

ghost use Rattle.dn_word.specs.Laws.{AddressesAreReadBack, NumbersAreReadBack};

/// Reading the decimal digits of a number gives the number.
pub fn numbers_are_read_back()
    ensures { NumbersAreReadBack }
{}

/// Reading the text of an address of IPv4 gives the address.
pub fn addresses_are_read_back()
    ensures { AddressesAreReadBack }
{}

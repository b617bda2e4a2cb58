ghost use Rattle.std.specs.Prelude.{◌≡◌, [], find, map, nat_eq, option_copied};
ghost use Rattle.dn_word.specs.Words.{is_word};
ghost use Rattle.dn_text.specs.Table.{form_in, form_of, types};
ghost use Rattle.dn_text.specs.Shapes.{shape, type_entry};

use dn_rdata::{A, AAAA, CNAME, MX, NS, PTR, SOA, SRV};
use dn_word::is_word;

// What a computer and its system are (RFC 1035 3.3.2).
const HINFO: u16 = 13;

// Any strings (RFC 1035 3.3.14).
const TXT: u16 = 16;

// Who registered an address (RFC 4701).
const DHCID: u16 = 49;

/// A word of the text of data.
#[derive(Clone, Copy, Debug, PartialEq, Eq)]
pub(crate) enum Field {
    /// A number of 64 bits, its least byte first.
    Ticks,
    /// Four bytes as decimals joined by dots.
    FourBytes,
    /// Sixteen bytes as groups of hex digits.
    Groups,
    /// A name.
    OneName,
    /// A number of 16 bits.
    Short,
    /// A number of 32 bits.
    Long,
    /// Any bytes as hex digits, `-` where there are none.
    Digits,
}

/// The text of a type's data.
#[derive(Clone, Copy, Debug)]
pub(crate) enum Form {
    /// These words, with a space between each two.
    Words(&'static [Field]),
    /// Strings in double quotes.
    Texts,
    /// Two strings in double quotes.
    TwoTexts,
}

/// A type that has a name.
#[derive(Clone, Copy, Debug)]
pub(crate) struct Known {
    /// Its number.
    pub(crate) number: u16,
    /// Its name, in capital letters.
    pub(crate) name: &'static [u8],
    /// What the text of its data is.
    pub(crate) form: Form,
}

// The types that have names (RFC 1035 3.2.2, RFC 2782, RFC 3596 2.1, RFC 4701).
const TYPES: &[Known] = &[
    Known {
        number: A,
        name: b"A",
        form: Form::Words(&[Field::FourBytes]),
    },
    Known {
        number: NS,
        name: b"NS",
        form: Form::Words(&[Field::OneName]),
    },
    Known {
        number: CNAME,
        name: b"CNAME",
        form: Form::Words(&[Field::OneName]),
    },
    Known {
        number: SOA,
        name: b"SOA",
        form: Form::Words(&[
            Field::OneName,
            Field::OneName,
            Field::Long,
            Field::Long,
            Field::Long,
            Field::Long,
            Field::Long,
        ]),
    },
    Known {
        number: PTR,
        name: b"PTR",
        form: Form::Words(&[Field::OneName]),
    },
    Known {
        number: HINFO,
        name: b"HINFO",
        form: Form::TwoTexts,
    },
    Known {
        number: MX,
        name: b"MX",
        form: Form::Words(&[Field::Short, Field::OneName]),
    },
    Known {
        number: TXT,
        name: b"TXT",
        form: Form::Texts,
    },
    Known {
        number: AAAA,
        name: b"AAAA",
        form: Form::Words(&[Field::Groups]),
    },
    Known {
        number: SRV,
        name: b"SRV",
        form: Form::Words(&[Field::Short, Field::Short, Field::Short, Field::OneName]),
    },
    Known {
        number: DHCID,
        name: b"DHCID",
        form: Form::Words(&[Field::Digits]),
    },
];

/// The types that have names.
pub(crate) fn known_types() -> &'static [Known]
    ensures { map type_entry result.now ≡ types }
{
    TYPES
}

/// The first type of this number.
pub(crate) fn with_number(table: &'static [Known], rtype: u16) -> Option<&'static Known>
    ensures { option_copied result ≡ find (λ known. nat_eq rtype known.number) table.now }
{
    table.iter().find(|known| rtype == known.number)
}

/// The first type of this name.
pub(crate) fn with_name(table: &'static [Known], word: &[u8]) -> Option<&'static Known>
    ensures { option_copied result ≡ find (λ known. is_word word.now known.name.now) table.now }
{
    table.iter().find(|known| is_word(word, known.name))
}

/// The form of the text of a type's data: a time for a tombstone, and any bytes for other types without a name.
pub(crate) fn form_of(rtype: u16) -> Form
    ensures { shape result ≡ form_of rtype }
{
    match with_number(known_types(), rtype) {
        Some(known) => known.form,
        None => form_without_name(rtype),
    }
}

// The form of the text of the data of a type without a name.
fn form_without_name(rtype: u16) -> Form
    ensures { shape result ≡ form_in [] rtype }
{
    match rtype {
        0 => Form::Words(&[Field::Ticks]),
        _ => Form::Words(&[Field::Digits]),
    }
}

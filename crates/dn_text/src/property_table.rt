ghost use Rattle.std.specs.Prelude.{◌≡◌, ◌++◌, OnOk, find, map, nat_eq, option_copied};
ghost use Rattle.dn_word.specs.Words.{is_word};
ghost use Rattle.dn_text.specs.PropertyLines.{id_of_word};
ghost use Rattle.dn_text.specs.PropertyTable.{id_named, id_text, properties};
ghost use Rattle.dn_text.specs.Shapes.{property};

use dn_io::{List, OutOfMemory};
use dn_property::ids;
use dn_word::{is_word, number_of, push_number};
use std::alloc::Global;

// A property that has a name.
#[derive(Clone, Copy)]
struct Named {
    id: u32,
    name: &'static [u8],
}

// The properties that have names (MS-DNSP 2.3.2.1.1).
const PROPERTIES: &[Named] = &[
    Named {
        id: ids::ZONE_TYPE,
        name: b"ZONE_TYPE",
    },
    Named {
        id: ids::ALLOW_UPDATE,
        name: b"ALLOW_UPDATE",
    },
    Named {
        id: ids::SECURE_TIME,
        name: b"SECURE_TIME",
    },
    Named {
        id: ids::NOREFRESH_INTERVAL,
        name: b"NOREFRESH_INTERVAL",
    },
    Named {
        id: ids::SCAVENGING_SERVERS,
        name: b"SCAVENGING_SERVERS",
    },
    Named {
        id: ids::AGING_ENABLED_TIME,
        name: b"AGING_ENABLED_TIME",
    },
    Named {
        id: ids::REFRESH_INTERVAL,
        name: b"REFRESH_INTERVAL",
    },
    Named {
        id: ids::AGING_STATE,
        name: b"AGING_STATE",
    },
    Named {
        id: ids::DELETED_FROM_HOSTNAME,
        name: b"DELETED_FROM_HOSTNAME",
    },
    Named {
        id: ids::MASTER_SERVERS,
        name: b"MASTER_SERVERS",
    },
    Named {
        id: ids::AUTO_NS_SERVERS,
        name: b"AUTO_NS_SERVERS",
    },
    Named {
        id: ids::DCPROMO_CONVERT,
        name: b"DCPROMO_CONVERT",
    },
    Named {
        id: ids::NODE_DBFLAGS,
        name: b"NODE_DBFLAGS",
    },
];

// The properties that have names.
fn known_properties() -> &'static [Named]
    ensures { map property result.now ≡ properties }
{
    PROPERTIES
}

// The first property of this number.
fn with_id(table: &'static [Named], id: u32) -> Option<&'static Named>
    ensures { option_copied result ≡ find (λ named. nat_eq id named.id) table.now }
{
    table.iter().find(|named| id == named.id)
}

// The first property of this name.
fn with_name(table: &'static [Named], word: &[u8]) -> Option<&'static Named>
    ensures { option_copied result ≡ find (λ named. is_word word.now named.name.now) table.now }
{
    table.iter().find(|named| is_word(word, named.name))
}

/// Prints the name of a property (MS-DNSP 2.3.2.1.1), or the number of one that has none.
pub(crate) fn push_id(alloc: Global, out: &mut List<u8>, id: u32) -> Result<(), OutOfMemory>
    ensures { OnOk result (out.new ≡ out.old ++ id_text id) }
{
    match with_id(known_properties(), id) {
        Some(named) => out.extend(named.name),
        None => push_number(alloc, out, u64::from(id)),
    }
}

// The property of this name.
fn id_named(word: &[u8]) -> Option<u32>
    ensures { result ≡ id_named word.now }
{
    with_name(known_properties(), word).map(|named| named.id)
}

/// The property that a word stands for, by its name or its number.
#[tactic(auto, unfolding(crate::specs::PropertyLines::id_of_word))]
pub(crate) fn id_of_word(word: &[u8]) -> Option<u32>
    ensures { result ≡ id_of_word word.now }
{
    match id_named(word) {
        Some(id) => Some(id),
        None => number_of(u32::MAX, word),
    }
}

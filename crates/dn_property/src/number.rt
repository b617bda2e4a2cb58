//! Numbers of four bytes, the low byte first (MS-DNSP 2.3.2.1).

ghost use Rattle.std.specs.Prelude.{◌≡◌, ◌<◌, ◌++◌, length, IfSome, IfNone, OnOk};
ghost use Rattle.dn_property.specs.Numbers.{four_little, number_in};

use dn_io::{List, OutOfMemory};

pub(crate) fn first_u32(bytes: &[u8]) -> Option<(u32, &[u8])>
    ensures found { IfSome result (λ found. bytes.now ≡ four_little found.0 ++ found.1.now) }
    ensures none { IfNone result (length bytes.now < 4) }
{
    match bytes {
        [low, second, third, high, rest @ ..] => {
            Some((u32::from_le_bytes([*low, *second, *third, *high]), rest))
        },
        _ => None,
    }
}

// The number in four bytes; none in data of another length.
pub(crate) fn number_in(content: &[u8]) -> Option<u32>
    ensures { result ≡ number_in content.now }
{
    match first_u32(content)? {
        (number, []) => Some(number),
        _ => None,
    }
}

pub(crate) fn push_u32(bytes: &mut List<u8>, number: u32) -> Result<(), OutOfMemory>
    ensures { OnOk result (bytes.new ≡ bytes.old ++ four_little number) }
{
    bytes.extend(&number.to_le_bytes())
}

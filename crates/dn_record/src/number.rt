//! Numbers of two and four bytes. The low one comes first, except where the name says big.

ghost use Rattle.std.specs.Prelude.{◌≡◌, ◌<◌, ◌∷◌, ◌++◌, length, IfNone, IfSome};
ghost use Rattle.dn_record.specs.Fields.{four_big, four_little, two_little};

pub(crate) fn first_byte(bytes: &[u8]) -> Option<(u8, &[u8])>
    ensures found { IfSome result (λ found. bytes.now ≡ found.0 ∷ found.1.now) }
    ensures none { IfNone result (length bytes.now < 1) }
{
    let (first, rest) = bytes.split_first()?;
    Some((*first, rest))
}

pub(crate) fn first_u16(bytes: &[u8]) -> Option<(u16, &[u8])>
    ensures found { IfSome result (λ found. bytes.now ≡ two_little found.0 ++ found.1.now) }
    ensures none { IfNone result (length bytes.now < 2) }
{
    match bytes {
        [low, high, rest @ ..] => Some((u16::from_le_bytes([*low, *high]), rest)),
        _ => None,
    }
}

pub(crate) fn first_u32(bytes: &[u8]) -> Option<(u32, &[u8])>
    ensures found { IfSome result (λ found. bytes.now ≡ four_little found.0 ++ found.1.now) }
    ensures none { IfNone result (length bytes.now < 4) }
{
    match bytes {
        [low, second, third, high, rest @ ..] => {
            Some((u32::from_le_bytes([*low, *second, *third, *high]), rest))
        }
        _ => None,
    }
}

pub(crate) fn first_big_u32(bytes: &[u8]) -> Option<(u32, &[u8])>
    ensures found { IfSome result (λ found. bytes.now ≡ four_big found.0 ++ found.1.now) }
    ensures none { IfNone result (length bytes.now < 4) }
{
    match bytes {
        [high, second, third, low, rest @ ..] => {
            Some((u32::from_be_bytes([*high, *second, *third, *low]), rest))
        }
        _ => None,
    }
}

pub(crate) fn two_little(number: u16) -> [u8; 2]
    ensures { result ≡ two_little number }
{
    number.to_le_bytes()
}

pub(crate) fn four_little(number: u32) -> [u8; 4]
    ensures { result ≡ four_little number }
{
    number.to_le_bytes()
}

pub(crate) fn four_big(number: u32) -> [u8; 4]
    ensures { result ≡ four_big number }
{
    number.to_be_bytes()
}

ghost use Rattle.std.specs.Prelude.{◌≡◌, ◌++◌, decimal, OnErr, OnOk};
ghost use Rattle.dn_name.specs.Text.{text_of};
ghost use Rattle.dn_word.specs.Print.{count_text};

use dn_io::{List, OutOfMemory};
use dn_name::Name;
use std::alloc::Global;

/// Prints a number in decimal.
///
/// # Errors
/// `OutOfMemory`; nothing is printed then.
pub fn push_number(alloc: Global, out: &mut List<u8>, number: u64) -> Result<(), OutOfMemory>
    ensures ok { OnOk result (out.new ≡ out.old ++ decimal number) }
    ensures err { OnErr result (out.new ≡ out.old) }
{
    let text = format!(in alloc; "{number}")?;
    out.extend(text.as_bytes())
}

/// Prints a number behind what it counts.
///
/// # Errors
/// `OutOfMemory`; nothing is printed then.
#[tactic(auto, unfolding(crate::specs::Print::count_text))]
pub fn push_count(
    alloc: Global,
    out: &mut List<u8>,
    label: &[u8],
    count: u64,
) -> Result<(), OutOfMemory>
    ensures ok { OnOk result (out.new ≡ out.old ++ count_text label.now count) }
    ensures err { OnErr result (out.new ≡ out.old) }
{
    let digits = format!(in alloc; "{count}")?;
    out.extend_both(label, digits.as_bytes())
}

/// Prints a name (RFC 1035 5.1).
///
/// # Errors
/// `OutOfMemory`; nothing is printed then.
pub fn push_name(out: &mut List<u8>, name: &Name) -> Result<(), OutOfMemory>
    ensures ok { OnOk result (out.new ≡ out.old ++ text_of name.now) }
    ensures err { OnErr result (out.new ≡ out.old) }
{
    let mut text = [0u8; 1020];
    let len = name.write_text(&mut text);
    out.extend(&text[..len])
}

ghost use Rattle.std.specs.Prelude.{◌≡◌, ◌++◌, IfOk, OnOk};
ghost use Rattle.dn_text.specs.Rows.{data_text, formed_text, row_text};
ghost use Rattle.dn_text.specs.Shapes.{shape};

use crate::field::push_fields;
use crate::strings::push_strings;
use crate::table::{Form, form_of};
use crate::types::push_type;
use dn_io::{List, OutOfMemory};
use dn_name::Name;
use dn_word::{push_name, push_number};
use std::alloc::Global;

// The text of data of this form.
#[tactic(auto, unfolding(crate::specs::Rows::formed_text))]
fn push_formed(
    alloc: Global,
    out: &mut List<u8>,
    form: Form,
    bytes: &[u8],
) -> Result<(), OutOfMemory>
    ensures { OnOk result (out.new ≡ out.old ++ formed_text (shape form) bytes.now) }
{
    match form {
        Form::Words(fields) => push_fields(alloc, out, fields, bytes),
        Form::Texts | Form::TwoTexts => push_strings(out, bytes),
    }
}

/// Prints data of a type.
#[tactic(auto, unfolding(crate::specs::Rows::data_text))]
pub(crate) fn push_data(
    alloc: Global,
    out: &mut List<u8>,
    rtype: u16,
    bytes: &[u8],
) -> Result<(), OutOfMemory>
    ensures { OnOk result (out.new ≡ out.old ++ data_text rtype bytes.now) }
{
    push_formed(alloc, out, form_of(rtype), bytes)
}

/// The text of a row: `NAME TTL TYPE DATA`, with the time to live in seconds (RFC 1035 5.1). `rdata` is the data on the wire.
///
/// # Errors
/// `OutOfMemory`.
#[tactic(auto, unfolding(crate::specs::Rows::row_text))]
pub fn row_line(
    alloc: Global,
    owner: &Name,
    ttl: u32,
    rtype: u16,
    rdata: &[u8],
) -> Result<List<u8>, OutOfMemory>
    ensures { IfOk result (λ line. line ≡ row_text owner.now ttl rtype rdata.now) }
{
    let mut line = List::new(alloc);
    push_name(&mut line, owner)?;
    line.extend(b" ")?;
    push_number(alloc, &mut line, u64::from(ttl))?;
    line.extend(b" ")?;
    push_type(alloc, &mut line, rtype)?;
    line.extend(b" ")?;
    push_data(alloc, &mut line, rtype, rdata)?;
    Ok(line)
}

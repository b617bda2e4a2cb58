//! What the words of the program's command line ask for.

use dn_command::{Command, command_of};
use dn_io::{Addr, List, OutOfMemory};
use dn_word::{is_word, parts_between, push_count, push_dotted};
use std::alloc::Global;
use std::str;

// An address with its port.
fn push_addr(alloc: Global, addr: Addr, out: &mut List<u8>) -> Result<(), OutOfMemory> {
    push_dotted(alloc, out, &addr.ip)?;
    push_count(alloc, out, b":", u64::from(addr.port))
}

// A command with what it is given.
fn push_command(alloc: Global, command: Command, out: &mut List<u8>) -> Result<(), OutOfMemory> {
    match command {
        Command::Show => out.extend(b"show"),
        Command::Pack => out.extend(b"pack"),
        Command::Replay => out.extend(b"replay"),
        Command::Generate(steps) => push_count(alloc, out, b"generate ", u64::from(steps)),
        Command::Serve { at, sync } => {
            out.extend(b"serve ")?;
            push_addr(alloc, at, out)?;
            out.extend(b" ")?;
            push_addr(alloc, sync, out)
        }
        Command::Usage => out.extend(b"usage"),
    }
}

// The words between bars; none where one isn't text.
fn words_between(alloc: Global, text: &[u8]) -> Result<Option<Vec<&str>>, OutOfMemory> {
    let mut words = Vec::new(alloc);
    for part in parts_between(alloc, text, b'|')? {
        let Ok(word) = str::from_utf8(part) else {
            return Ok(None);
        };
        words.push(word)?;
    }
    Ok(Some(words))
}

/// The answer to `none`, for no word at all, or to `words` and words with a bar between each two.
pub fn answer(
    alloc: Global,
    call: &[u8],
    text: &[u8],
    out: &mut List<u8>,
) -> Result<(), OutOfMemory> {
    if is_word(call, b"none") {
        return push_command(alloc, command_of(&[]), out);
    }
    match words_between(alloc, text)? {
        Some(words) if is_word(call, b"words") => push_command(alloc, command_of(&words), out),
        _ => out.extend(b"no such call"),
    }
}

ghost use Rattle.std.specs.Prelude.{◌≡◌, IfOk};
ghost use Rattle.dn_script.specs.Print.{datagram_text, packet_text};
ghost use Rattle.dn_word.specs.Print.{as_line};

use dn_io::{List, OutOfMemory};
use dn_word::{hex_line, push_count};
use std::alloc::Global;

// The line that a script prints of a packet that was sent.
#[tactic(auto, unfolding(crate::specs::Print::packet_text))]
pub fn packet_line(alloc: Global, number: u32) -> Result<List<u8>, OutOfMemory>
    ensures { IfOk result (λ line. line ≡ as_line (packet_text number)) }
{
    let mut line = List::new(alloc);
    push_count(alloc, &mut line, b"packet ", u64::from(number))?;
    line.extend(b"\n")?;
    Ok(line)
}

// The line that a script prints of the bytes that came back to a datagram, `silent` for none.
#[tactic(auto, unfolding(crate::specs::Print::datagram_text))]
pub fn datagram_line(alloc: Global, reply: &[u8]) -> Result<List<u8>, OutOfMemory>
    ensures { IfOk result (λ line. line ≡ as_line (datagram_text reply.now)) }
{
    if reply.is_empty() {
        return List::from_slice(alloc, b"silent\n");
    }
    hex_line(alloc, reply)
}

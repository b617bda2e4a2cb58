//! Replies of a header alone.

ghost use Rattle.std.specs.Prelude.{◌≡◌, ◌≤◌, ◌++◌, length, take, drop};
ghost use Rattle.dn_message.specs.Reply.{IsReply};
ghost use Rattle.dn_message.specs.Short.{short_bytes, short_of};

use crate::rcode::Rcode;
use crate::writing::put;

/// Writes a reply of a header alone at the front of the buffer, for a request that isn't read any further, and answers
/// that it takes 12 bytes; the bytes behind stay. It repeats the request's number, opcode and RD.
pub fn short_reply(request: &[u8], rcode: Rcode, out: &mut [u8]) -> usize
    requires whole { 12 ≤ length request.now }
    requires room { 12 ≤ length out.old }
    ensures len { result ≡ 12 }
    ensures bytes { out.new ≡ short_bytes request.now rcode ++ drop 12 out.old }
    ensures reads { IsReply (take 12 out.new) (short_of request.now rcode) }
{
    put(out, 0, &bytes_of_short_reply(request, rcode))
}

// The header: the bit of a reply and those of opcode and RD, the code, and no entry in any section.
fn bytes_of_short_reply(request: &[u8], rcode: Rcode) -> [u8; 12]
    requires { 12 ≤ length request.now }
    ensures { result ≡ short_bytes request.now rcode }
{
    let high = 128 + request[2] / 8 % 16 * 8 + request[2] % 2;
    let code = rcode.number();
    [request[0], request[1], high, code, 0, 0, 0, 0, 0, 0, 0, 0]
}

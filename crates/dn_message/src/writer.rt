//! Replies as bytes, written piece by piece into a buffer.

ghost use Rattle.std.specs.Prelude.{◌≡◌, ℕ, ◌-◌, ◌<◌, ◌≤◌, ◌^◌, List, length, take, drop, OnErr};
ghost use Rattle.dn_rdata.specs.Layout.{IsData};
ghost use Rattle.dn_rdata.specs.Types.{IN};
ghost use Rattle.dn_message.specs.declared.reply.Reply.{Reply};
ghost use Rattle.dn_message.specs.Pieces.{begun, bytes_of, with_question, with_row};
ghost use Rattle.dn_message.specs.Reply.{IsReply};
ghost use Rattle.dn_message.specs.Header.{header_len};
ghost use Rattle.dn_message.specs.Writer.{Accepts, Counted, Holds, KeepsRest, MayAsk, MayGrow, buffer, one_more, size};

use crate::counts::Counts;
use crate::pieces::{bytes_of_header, put_question, put_row, question_len, row_len};
use crate::rcode::Rcode;
use crate::writing::put;
use dn_name::{Name, NoRoom};

/// What the header of a reply says besides its counts. The opcode is 0, and RA and the three bits behind it are too.
#[derive(Clone, Copy, Debug, PartialEq, Eq)]
pub struct ReplyHead {
    /// The number of the query that is replied to.
    pub id: u16,
    /// Whether the answer is from the zone itself.
    pub aa: bool,
    /// Whether rows were left out, because they didn't fit.
    pub tc: bool,
    /// Whether recursion was desired.
    pub rd: bool,
    pub rcode: Rcode,
}

/// A section of records (RFC 1035 4.1).
#[derive(Clone, Copy, Debug, PartialEq, Eq)]
pub enum Section {
    Answer,
    Authority,
    Additional,
}

fn one_more(counts: Counts, section: Section) -> Counts
    requires { MayGrow counts section }
    ensures { result ≡ one_more counts section }
{
    match section {
        Section::Answer => Counts {
            answer: counts.answer + 1,
            ..counts
        },
        Section::Authority => Counts {
            authority: counts.authority + 1,
            ..counts
        },
        Section::Additional => Counts {
            additional: counts.additional + 1,
            ..counts
        },
    }
}

/// Writes a reply into a lent buffer: the question at most once and before all rows, then the rows in the order of their
/// sections, names without pointers. The header is written last.
#[derive(Drop)]
pub struct ReplyWriter<'b> {
    out: &'b mut [u8],
    place: usize,
    head: ReplyHead,
    counts: Counts,
}

impl<'b> ReplyWriter<'b> {
    /// Begins a reply that has no pieces. The buffer stays as it is.
    pub fn begin(out: &'b mut [u8], head: ReplyHead) -> ReplyWriter<'b>
        requires { header_len ≤ length out.old }
        ensures same_reference { result.out.ghost_name ≡ out.entry.ghost_name }
        ensures size { size result ≡ length out.old }
        ensures untouched { buffer result ≡ out.old }
        ensures keeps { KeepsRest out.old result }
        ensures counts { MayAsk result.counts }
        ensures holds { Holds result (begun head) }
    {
        ReplyWriter {
            out,
            place: 12,
            head,
            counts: Counts {
                questions: 0,
                answer: 0,
                authority: 0,
                additional: 0,
            },
        }
    }

    /// Appends the question, of class IN. The bytes behind it stay.
    ///
    /// # Errors
    /// `NoRoom` exactly where the question doesn't fit. The writer and its whole buffer are then as before.
    pub fn question(&mut self, name: &Name, qtype: u16) -> Result<(), NoRoom>
        requires { MayAsk self.old.counts }
        ensures same_reference { self.new.out.ghost_name ≡ self.old.out.ghost_name }
        ensures size { size self.new ≡ size self.old }
        ensures refused { OnErr result (self.new ≡ self.old) }
        ensures keeps { (before : List ℕ) → KeepsRest before self.old → KeepsRest before self.new }
        ensures counts { Counted result self.old.counts self.new.counts (record self.old.counts { questions = 1 }) }
        ensures accepts { (reply : Reply) → Holds self.old reply →
            Accepts self.new result reply (with_question reply (record { name = name.now; qtype = qtype; qclass = IN })) }
    {
        if question_len(name) > self.room() {
            return Err(NoRoom);
        }
        let place = self.place;
        self.place = put_question(self.out, place, name, qtype);
        self.counts.questions += 1;
        Ok(())
    }

    /// Appends a row, of class IN, to a section. Its data are in the wire form of their type, without pointers. The bytes
    /// behind it stay.
    ///
    /// # Errors
    /// `NoRoom` exactly where the row doesn't fit. The writer and its whole buffer are then as before, and a smaller row may
    /// still fit.
    pub fn row(
        &mut self,
        section: Section,
        owner: &Name,
        ttl: u32,
        rtype: u16,
        rdata: &[u8],
    ) -> Result<(), NoRoom>
        requires order { MayGrow self.old.counts section }
        requires valid { IsData rtype rdata.now }
        requires len { length rdata.now < 2 ^ 16 }
        ensures same_reference { self.new.out.ghost_name ≡ self.old.out.ghost_name }
        ensures size { size self.new ≡ size self.old }
        ensures refused { OnErr result (self.new ≡ self.old) }
        ensures keeps { (before : List ℕ) → KeepsRest before self.old → KeepsRest before self.new }
        ensures counts { Counted result self.old.counts self.new.counts (one_more self.old.counts section) }
        ensures accepts { (reply : Reply) → Holds self.old reply →
            Accepts self.new result reply (with_row reply section (record { name = owner.now; rtype = rtype; rclass = IN; ttl = ttl; rdata = rdata.now })) }
    {
        if row_len(owner, rdata) > self.room() {
            return Err(NoRoom);
        }
        let place = self.place;
        self.place = put_row(self.out, place, owner, ttl, rtype, rdata);
        self.counts = one_more(self.counts, section);
        Ok(())
    }

    /// Writes the header, and answers how many bytes the reply takes. The bytes behind these are those of the buffer in
    /// which the reply was begun.
    pub fn finish(self) -> usize
        requires { header_len ≤ size self }
        ensures reads { (reply : Reply) → Holds self.entry reply → IsReply (take result self.exit.0.now) reply × (result ≡ length (bytes_of reply)) }
        ensures bytes { (reply : Reply) → Holds self.entry reply → take result self.exit.0.now ≡ bytes_of reply }
        ensures within { (reply : Reply) → Holds self.entry reply → result ≤ size self.entry }
        ensures rest { (before : List ℕ) → KeepsRest before self.entry → drop result self.exit.0.now ≡ drop result before }
    {
        let ReplyWriter {
            out,
            place,
            head,
            counts,
        } = self;
        put(out, 0, &bytes_of_header(head, counts));
        place
    }

    fn room(&self) -> usize
        ensures { result ≡ size self.now - self.now.place }
    {
        self.out.len().saturating_sub(self.place)
    }
}

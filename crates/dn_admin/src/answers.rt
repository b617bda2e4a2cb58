ghost use Rattle.std.specs.Prelude.{◌≡◌, ◌++◌, IfOk, OnOk};
ghost use Rattle.dn_admin.specs.Answers.{admin_text, answer_text, gap_text, limit_text, span_text, sweep_text};
ghost use Rattle.dn_word.specs.Print.{as_line};

use dn_io::{List, OutOfMemory};
use dn_update::Limit;
use dn_word::push_count;
use dn_zone::{AdminDone, Answer};
use std::alloc::Global;

// What a command did.
fn push_admin(alloc: Global, out: &mut List<u8>, done: AdminDone) -> Result<(), OutOfMemory>
    ensures { OnOk result (out.new ≡ out.old ++ admin_text done) }
{
    match done {
        AdminDone::Written { units } => push_count(alloc, out, b"ok ", units),
        AdminDone::Unchanged => out.extend(b"ok 0"),
        AdminDone::NotInZone => out.extend(b"not in zone"),
    }
}

// The limit that a write would pass.
fn push_limit(out: &mut List<u8>, limit: Limit) -> Result<(), OutOfMemory>
    ensures { OnOk result (out.new ≡ out.old ++ limit_text limit) }
{
    match limit {
        Limit::NodeSize => out.extend(b"refused node-size"),
        Limit::Version => out.extend(b"refused version"),
        Limit::Changes => out.extend(b"refused changes"),
    }
}

// The change counts between which a pass ran.
#[tactic(auto, unfolding(crate::specs::Answers::span_text))]
fn push_span(alloc: Global, out: &mut List<u8>, start: u64, end: u64) -> Result<(), OutOfMemory>
    ensures { OnOk result (out.new ≡ out.old ++ span_text start end) }
{
    out.extend(b"finished")?;
    push_count(alloc, out, b" start ", start)?;
    push_count(alloc, out, b" end ", end)
}

// What a finished pass did.
#[tactic(auto, unfolding(crate::specs::Answers::sweep_text))]
fn push_sweep(
    alloc: Global,
    out: &mut List<u8>,
    removed: u64,
    entombed: u64,
    deleted: u64,
    skipped: u64,
) -> Result<(), OutOfMemory>
    ensures { OnOk result (out.new ≡ out.old ++ sweep_text removed entombed deleted skipped) }
{
    push_count(alloc, out, b" removed ", removed)?;
    push_count(alloc, out, b" entombed ", entombed)?;
    push_count(alloc, out, b" deleted ", deleted)?;
    push_count(alloc, out, b" skipped ", skipped)
}

// The changes that are missing.
#[tactic(auto, unfolding(crate::specs::Answers::gap_text))]
fn push_gap(alloc: Global, out: &mut List<u8>, cursor: u64, from: u64) -> Result<(), OutOfMemory>
    ensures { OnOk result (out.new ≡ out.old ++ gap_text cursor from) }
{
    push_count(alloc, out, b"gap ", cursor)?;
    push_count(alloc, out, b" ", from)
}

// An answer of a zone.
fn push_answer(alloc: Global, out: &mut List<u8>, answer: Answer) -> Result<(), OutOfMemory>
    ensures { OnOk result (out.new ≡ out.old ++ answer_text answer) }
{
    match answer {
        Answer::Admin(done) => push_admin(alloc, out, done),
        Answer::Begun => out.extend(b"begun"),
        Answer::NotDue => out.extend(b"not due"),
        Answer::Busy { hour } => push_count(alloc, out, b"busy ", u64::from(hour)),
        Answer::Moved => out.extend(b"moved"),
        Answer::Finished {
            start,
            end,
            removed,
            entombed,
            deleted,
            skipped,
        } => {
            push_span(alloc, out, start, end)?;
            push_sweep(alloc, out, removed, entombed, deleted, skipped)
        }
        Answer::Void { props_usn } => push_count(alloc, out, b"void ", props_usn),
        Answer::Idle => out.extend(b"idle"),
        Answer::Merged { won } => push_count(alloc, out, b"merged ", u64::from(won)),
        Answer::Gap { cursor, from } => push_gap(alloc, out, cursor, from),
        Answer::Refused(limit) => push_limit(out, limit),
    }
}

/// The line that is printed of an answer of a zone, with its line feed.
///
/// # Errors
/// `OutOfMemory`.
pub fn answer_line(alloc: Global, answer: Answer) -> Result<List<u8>, OutOfMemory>
    ensures { IfOk result (λ line. line ≡ as_line (answer_text answer)) }
{
    let mut line = List::new(alloc);
    push_answer(alloc, &mut line, answer)?;
    line.extend(b"\n")?;
    Ok(line)
}

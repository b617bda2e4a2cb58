ghost use Rattle.std.specs.Prelude.{◌≡◌, map, true, false, IfOk, MatchOption};
ghost use Rattle.dn_lines.specs.Words.{does_nothing};
ghost use Rattle.dn_word.specs.Words.{words_of};

use dn_io::OutOfMemory;
use dn_word::words_of;
use std::alloc::Global;

// Whether a line with these words does nothing: it has none, or begins with `#`.
#[tactic(auto, unfolding(crate::specs::Words::does_nothing))]
fn does_nothing(line: &[u8], words: &[&[u8]]) -> bool
    requires { map (λ word. word.now) words.now ≡ words_of line.now }
    ensures { result ≡ does_nothing line.now }
{
    line.first() == Some(&b'#') || words.is_empty()
}

/// The words of a line that does something; none where it does nothing, since it has no word or begins with `#`.
///
/// # Errors
/// `OutOfMemory`.
pub fn work_of<'a>(alloc: Global, line: &'a [u8]) -> Result<Option<Vec<&'a [u8]>>, OutOfMemory>
    ensures { IfOk result (λ work. MatchOption work (does_nothing line.now ≡ true) (λ words.
        (does_nothing line.now ≡ false) × (map (λ word. word.now) words.items ≡ words_of line.now))) }
{
    let words = words_of(alloc, line)?;
    if does_nothing(line, &words) {
        return Ok(None);
    }
    Ok(Some(words))
}

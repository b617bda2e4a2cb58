ghost use Rattle.std.specs.Prelude.{◌≡◌, IfOk, map, nat_eq};
ghost use Rattle.std.specs.List.{slice_split};
ghost use Rattle.dn_word.specs.Words.{is_blank, is_word, words_of};

use std::alloc::{AllocError, Global};

pub(crate) fn is_blank(byte: u8) -> bool
    ensures { result ≡ is_blank byte }
{
    byte == b' ' || byte == b'\t'
}

/// The words of a line: what stands between its blanks.
#[tactic(auto, unfolding(crate::specs::Words::words_of))]
pub fn words_of<'a>(alloc: Global, line: &'a [u8]) -> Result<Vec<&'a [u8]>, AllocError>
    ensures { IfOk result (λ words. map (λ word. word.now) words.items ≡ words_of line.now) }
{
    line.split(|byte| is_blank(*byte))
        .filter(|word| !word.is_empty())
        .collect(alloc)
}

/// Whether a word is this one.
pub fn is_word(text: &[u8], word: &[u8]) -> bool
    ensures { result ≡ is_word text.now word.now }
{
    text == word
}

/// The parts of a text between its separators, empty ones too.
pub fn parts_between<'a>(
    alloc: Global,
    text: &'a [u8],
    separator: u8,
) -> Result<Vec<&'a [u8]>, AllocError>
    ensures { IfOk result (λ parts. map (λ part. part.now) parts.items ≡ slice_split (λ byte. nat_eq byte separator) text.now) }
{
    text.split(|byte| *byte == separator).collect(alloc)
}

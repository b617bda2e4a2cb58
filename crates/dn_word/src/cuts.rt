ghost use Rattle.std.specs.Prelude.{◌≡◌, ◌≤◌, length, None, Some, MatchOption};
ghost use Rattle.std.specs.List.{prefix_len, suffix_len};
ghost use Rattle.dn_word.specs.Cuts.{before_blanks, behind_blanks, cut_last_word, cut_word, is_in_word, trimmed};
ghost use Rattle.dn_word.specs.Words.{is_blank};

use crate::words::is_blank;

#[tactic(auto, using(crate::proofs::CutLemmas::front_within))]
fn blanks_at_front(text: &[u8]) -> usize
    ensures count { result ≡ prefix_len is_blank text.now }
    ensures within { result ≤ length text.now }
{
    text.iter().take_while(|byte| is_blank(**byte)).count()
}

#[tactic(auto, using(crate::proofs::CutLemmas::front_within))]
fn letters_at_front(text: &[u8]) -> usize
    ensures count { result ≡ prefix_len is_in_word text.now }
    ensures within { result ≤ length text.now }
{
    text.iter().take_while(|byte| !is_blank(**byte)).count()
}

#[tactic(auto, using(crate::proofs::CutLemmas::end_within))]
fn blanks_at_end(text: &[u8]) -> usize
    ensures count { result ≡ suffix_len is_blank text.now }
    ensures within { result ≤ length text.now }
{
    text.iter()
        .rev()
        .take_while(|byte| is_blank(**byte))
        .count()
}

#[tactic(auto, using(crate::proofs::CutLemmas::end_within))]
fn letters_at_end(text: &[u8]) -> usize
    ensures count { result ≡ suffix_len is_in_word text.now }
    ensures within { result ≤ length text.now }
{
    text.iter()
        .rev()
        .take_while(|byte| !is_blank(**byte))
        .count()
}

#[tactic(auto, unfolding(crate::specs::Cuts::behind_blanks))]
fn behind_blanks(text: &[u8]) -> &[u8]
    ensures { result.now ≡ behind_blanks text.now }
{
    &text[blanks_at_front(text)..]
}

#[tactic(auto, unfolding(crate::specs::Cuts::before_blanks))]
fn before_blanks(text: &[u8]) -> &[u8]
    ensures { result.now ≡ before_blanks text.now }
{
    &text[..text.len() - blanks_at_end(text)]
}

/// A text without the blanks at its front and its end.
pub fn trimmed(text: &[u8]) -> &[u8]
    ensures { result.now ≡ trimmed text.now }
{
    before_blanks(behind_blanks(text))
}

/// The first word of a text, and what stands behind it, blanks too; none where there are only blanks.
#[tactic(auto, unfolding(crate::specs::Cuts::cut_word))]
pub fn cut_word(text: &[u8]) -> Option<(&[u8], &[u8])>
    ensures { let there = cut_word text.now in
        MatchOption result (there ≡ None) (λ found. there ≡ Some (found.0.now, found.1.now)) }
{
    let rest = behind_blanks(text);
    let len = letters_at_front(rest);
    if len == 0 {
        return None;
    }
    Some(rest.split_at(len))
}

/// What stands before the last word of a text, blanks too, and that word; none where there are only blanks.
#[tactic(auto, unfolding(crate::specs::Cuts::cut_last_word))]
pub fn cut_last_word(text: &[u8]) -> Option<(&[u8], &[u8])>
    ensures { let there = cut_last_word text.now in
        MatchOption result (there ≡ None) (λ found. there ≡ Some (found.0.now, found.1.now)) }
{
    let front = before_blanks(text);
    let len = letters_at_end(front);
    if len == 0 {
        return None;
    }
    Some(front.split_at(front.len() - len))
}

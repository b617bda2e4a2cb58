ghost use Rattle.std.specs.Prelude.{◌≡◌, None, Some, IfSome, MatchOption, nat_eq, position, ◌≤◌};
ghost use Rattle.dn_text.specs.Labelled.{behind_label, cut_at_space, number_behind, word_behind};

use dn_word::{is_word, number_within};

/// What stands behind a label at the front of a text.
#[tactic(auto, unfolding(crate::specs::Labelled::behind_label))]
pub(crate) fn behind_label<'a>(label: &[u8], text: &'a [u8]) -> Option<&'a [u8]>
    ensures { let there = behind_label label.now text.now in
        MatchOption result (there ≡ None) (λ rest. there ≡ Some rest.now) }
{
    let (front, rest) = text.split_at(text.len().min(label.len()));
    if is_word(front, label) {
        Some(rest)
    } else {
        None
    }
}

// Where the first space stands.
fn place_of_space(text: &[u8]) -> Option<usize>
    ensures { result ≡ position (λ byte. nat_eq byte 32) text.now }
{
    text.iter().position(|byte| *byte == b' ')
}

// What stands before and behind the first space.
#[tactic(auto, using(crate::proofs::LabelledLemmas::no_space, crate::proofs::LabelledLemmas::a_space))]
fn cut_at_space(text: &[u8]) -> Option<(&[u8], &[u8])>
    ensures { let there = cut_at_space text.now in
        MatchOption result (there ≡ None) (λ found. there ≡ Some (found.0.now, found.1.now)) }
{
    let place = place_of_space(text)?;
    let (before, rest) = text.split_at(place);
    let (_, behind) = rest.split_first()?;
    Some((before, behind))
}

/// The word behind a label, and what stands behind the space that ends it.
#[tactic(auto, unfolding(crate::specs::Labelled::word_behind))]
pub(crate) fn word_behind<'a>(label: &[u8], text: &'a [u8]) -> Option<(&'a [u8], &'a [u8])>
    ensures { let there = word_behind label.now text.now in
        MatchOption result (there ≡ None) (λ found. there ≡ Some (found.0.now, found.1.now)) }
{
    let rest = behind_label(label, text)?;
    cut_at_space(rest)
}

/// The number of 32 bits behind a label, where it is at most `most`, and what stands behind the space that ends it.
#[tactic(auto, unfolding(crate::specs::Labelled::number_behind))]
pub(crate) fn number_behind<'a>(label: &[u8], most: u32, text: &'a [u8]) -> Option<(u32, &'a [u8])>
    ensures value { let there = number_behind label.now most text.now in
        MatchOption result (there ≡ None) (λ found. there ≡ Some (found.0, found.1.now)) }
    ensures within { IfSome result (λ found. found.0 ≤ most) }
{
    let (word, rest) = word_behind(label, text)?;
    let number = number_within(u64::from(most), word)?;
    Some((number as u32, rest))
}

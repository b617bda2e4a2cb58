ghost use Rattle.dn_word.specs.Moments.{moment_of};
ghost use Rattle.dn_word.specs.Names.{name_word};
ghost use Rattle.dn_word.specs.Numbers.{number_within};
ghost use Rattle.std.specs.Prelude.{◌≡◌};

use crate::number::number_within;
use dn_io::Moment;
use dn_name::Name;

/// The name that a word is, where it is one (RFC 1035 5.1).
#[tactic(auto, unfolding(crate::specs::Names::name_word))]
pub fn name_of(word: &[u8]) -> Option<Name>
    ensures { result ≡ name_word word.now }
{
    Name::from_text(word).ok()
}

/// The number of 32 bits that a word is, in decimal without sign and leading zero, where it is at most `most`.
pub fn number_of(most: u32, word: &[u8]) -> Option<u32>
    ensures { result ≡ number_within most word.now }
{
    let number = number_within(u64::from(most), word)?;
    Some(number as u32)
}

/// The moment that a word is, where it is one: ticks of 100 ns since 1601-01-01 00:00 UTC, at least an hour, in decimal.
#[tactic(auto, unfolding(crate::specs::Moments::moment_of))]
pub fn moment_of(word: &[u8]) -> Option<Moment>
    ensures { result ≡ moment_of word.now }
{
    let ticks = number_within(u64::MAX, word)?;
    Moment::of(ticks)
}

ghost use Rattle.std.specs.Prelude.{◌≡◌, ◌+◌, ◌-◌, ◌*◌, ◌^◌, ◌≤◌, IfSome, MatchOption};
ghost use Rattle.std.specs.List.{list_all};
ghost use Rattle.dn_word.specs.Numbers.{is_digit, no_leading_zero, number_within};
ghost use Rattle.dn_word.specs.Numbers.Bounded.{value_within};

fn is_digit(byte: u8) -> bool
    ensures { result ≡ is_digit byte }
{
    byte.is_ascii_digit()
}

fn all_digits(word: &[u8]) -> bool
    ensures { result ≡ list_all is_digit word.now }
{
    word.iter().all(|byte| is_digit(*byte))
}

fn no_leading_zero(word: &[u8]) -> bool
    ensures { result ≡ no_leading_zero word.now }
{
    match word {
        [] => false,
        [_] => true,
        [first, ..] => *first != b'0',
    }
}

// The value of digits and one more behind them, where it fits.
fn with_digit(value: u64, digit: u8) -> Option<u64>
    ensures { MatchOption result (2 ^ 64 ≤ 10 * value + (digit - 48)) (λ next. next ≡ 10 * value + (digit - 48)) }
{
    value
        .checked_mul(10)?
        .checked_add(u64::from(digit.saturating_sub(b'0')))
}

// The value of decimal digits, where it is at most `most`.
fn value_within(most: u64, digits: &[u8]) -> Option<u64>
    ensures { result ≡ value_within most digits.now }
{
    let mut value = 0;
    for digit in digits {
        value = with_digit(value, *digit)?;
    }
    if value <= most { Some(value) } else { None }
}

/// The decimal number that a word is, without sign and leading zero, where it is at most `most`.
#[tactic(auto, unfolding(crate::specs::Numbers::number_within), using(crate::proofs::NumberLemmas::number_kept))]
pub fn number_within(most: u64, word: &[u8]) -> Option<u64>
    ensures value { result ≡ number_within most word.now }
    ensures within { IfSome result (λ value. value ≤ most) }
{
    if all_digits(word) && no_leading_zero(word) {
        value_within(most, word)
    } else {
        None
    }
}

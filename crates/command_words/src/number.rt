//! Reads a number.

ghost use Rattle.std.specs.Prelude.{◌≡◌, ◌^◌, ◌<◌, IsTrue};
ghost use Rattle.std.specs.List.{list_all};
ghost use Rattle.std.specs.Option.{SomeIff};
ghost use Rattle.ho_events.specs.Script.Forms.{is_digit as digit, is_number as number, with_digits};
ghost use Rattle.command_words.specs.Requests.{is_number_u64};

/// The most digits of a number.
const NUMBER_DIGITS: usize = 20;

/// The number that a word spells; none exactly where it isn't 1 to 20 decimal digits of a value below 2^64. Leading zeros
/// are taken.
pub fn number_u64(word: &[u8]) -> Option<u64>
    ensures { SomeIff result (IsTrue (is_number_u64 word.now)) (with_digits 0 word.now) }
{
    if is_number(word) {
        value_of(word)
    } else {
        None
    }
}

/// Whether a word is 1 to 20 decimal digits.
fn is_number(word: &[u8]) -> bool
    ensures { result ≡ number word.now }
{
    !word.is_empty() && word.len() <= NUMBER_DIGITS && has_digits(word)
}

/// Whether each of these bytes is a decimal digit.
fn has_digits(word: &[u8]) -> bool
    ensures { result ≡ list_all digit word.now }
{
    word.iter().all(|b| is_digit(*b))
}

/// Whether this byte is a decimal digit.
fn is_digit(b: u8) -> bool
    ensures { result ≡ digit b }
{
    b'0' <= b && b <= b'9'
}

/// The value of decimal digits; none exactly where it doesn't fit 8 bytes.
#[tactic(auto, using(crate::proofs::Numbers::one_digit, crate::proofs::Numbers::digits_end, crate::proofs::Numbers::digits_grow))]
fn value_of(digits: &[u8]) -> Option<u64>
    ensures { SomeIff result (with_digits 0 digits.now < 2 ^ 64) (with_digits 0 digits.now) }
{
    let mut value: u64 = 0;
    for b in digits {
        value = value
            .checked_mul(10)?
            .checked_add(u64::from(b.saturating_sub(b'0')))?;
    }
    Some(value)
}

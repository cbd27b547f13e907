//! The words after the first one.

ghost use Rattle.std.specs.Prelude.{◌≡◌, MatchResult, Ok, Err};
ghost use Rattle.ho_events.specs.Script.Words.{words};
ghost use Rattle.ho_events.specs.Script.Lines.{one_word as one_rule, two_words as two_rule, three_words as three_rule, four_words as four_rule, one_name as one_name_rule, name_and_number as name_number_rule, name_token_label as name_token_rule};

use crate::forms::{name_of, number_u32, number_u64};
use crate::words::next_word;
use ho_base::name::Name;
use ho_events::line::Reason;

/// The one word of some bytes; [`Reason::Count`] exactly where they have fewer or more.
pub fn one_word(args: &[u8]) -> Result<&[u8], Reason>
    ensures { MatchResult result (λ a. one_rule (words args.now) ≡ Ok a.now) (λ why. one_rule (words args.now) ≡ Err why) }
{
    let Some((a, rest)) = next_word(args) else {
        return Err(Reason::Count);
    };
    match next_word(rest) {
        None => Ok(a),
        Some(_) => Err(Reason::Count),
    }
}

/// The two words of some bytes; [`Reason::Count`] exactly where they have fewer or more.
pub fn two_words(args: &[u8]) -> Result<(&[u8], &[u8]), Reason>
    ensures { MatchResult result (λ a. two_rule (words args.now) ≡ Ok (a.0.now, a.1.now)) (λ why. two_rule (words args.now) ≡ Err why) }
{
    let Some((a, rest)) = next_word(args) else {
        return Err(Reason::Count);
    };
    let Some((b, rest)) = next_word(rest) else {
        return Err(Reason::Count);
    };
    match next_word(rest) {
        None => Ok((a, b)),
        Some(_) => Err(Reason::Count),
    }
}

/// The three words of some bytes; [`Reason::Count`] exactly where they have fewer or more.
pub fn three_words(args: &[u8]) -> Result<(&[u8], &[u8], &[u8]), Reason>
    ensures { MatchResult result (λ a. three_rule (words args.now) ≡ Ok (a.0.now, a.1.now, a.2.now)) (λ why. three_rule (words args.now) ≡ Err why) }
{
    let Some((a, rest)) = next_word(args) else {
        return Err(Reason::Count);
    };
    let Some((b, rest)) = next_word(rest) else {
        return Err(Reason::Count);
    };
    let Some((c, rest)) = next_word(rest) else {
        return Err(Reason::Count);
    };
    match next_word(rest) {
        None => Ok((a, b, c)),
        Some(_) => Err(Reason::Count),
    }
}

/// The four words of some bytes; [`Reason::Count`] exactly where they have fewer or more.
pub fn four_words(args: &[u8]) -> Result<(&[u8], &[u8], &[u8], &[u8]), Reason>
    ensures { MatchResult result (λ a. four_rule (words args.now) ≡ Ok (a.0.now, a.1.now, a.2.now, a.3.now)) (λ why. four_rule (words args.now) ≡ Err why) }
{
    let Some((a, rest)) = next_word(args) else {
        return Err(Reason::Count);
    };
    let Some((b, rest)) = next_word(rest) else {
        return Err(Reason::Count);
    };
    let Some((c, rest)) = next_word(rest) else {
        return Err(Reason::Count);
    };
    let Some((d, rest)) = next_word(rest) else {
        return Err(Reason::Count);
    };
    match next_word(rest) {
        None => Ok((a, b, c, d)),
        Some(_) => Err(Reason::Count),
    }
}

/// The one name of some bytes.
#[tactic(auto, unfolding(ho_events::specs::Script::Lines::one_name))]
pub fn one_name(args: &[u8]) -> Result<Name, Reason>
    ensures { result ≡ one_name_rule (words args.now) }
{
    let name = one_word(args)?;
    name_of(name)
}

/// The label and the number of 4 bytes that some bytes have.
#[tactic(auto, unfolding(ho_events::specs::Script::Lines::name_and_number))]
pub fn name_and_number(args: &[u8]) -> Result<(Name, u32), Reason>
    ensures { result ≡ name_number_rule (words args.now) }
{
    let (label, number) = two_words(args)?;
    let label = name_of(label)?;
    let number = number_u32(number, 0, u32::MAX)?;
    Ok((label, number))
}

/// The name, the number of 8 bytes and the label that some bytes have.
#[tactic(auto, unfolding(ho_events::specs::Script::Lines::name_token_label))]
pub fn name_token_label(args: &[u8]) -> Result<(Name, u64, Name), Reason>
    ensures { result ≡ name_token_rule (words args.now) }
{
    let (name, token, label) = three_words(args)?;
    let name = name_of(name)?;
    let token = number_u64(token, 0, u64::MAX)?;
    let label = name_of(label)?;
    Ok((name, token, label))
}

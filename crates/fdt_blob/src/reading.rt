//! Reading the tokens of a structure block (5.4).

ghost use Rattle.std.specs.Prelude.{◌≡◌, ◌+◌, ◌<◌, ◌==◌, length, take, drop, nat_eq, position, IfSome};
ghost use Rattle.std.specs.List.{list_all};
ghost use Rattle.fdt_blob.specs.Tokens.{padding as padding_spec};
ghost use Rattle.fdt_blob.specs.Reading.{Gives, number_at, part_at, behind_zeros as behind_zeros_spec, text_at as text_spec, before_zero as before_zero_spec, begun_at, property_at, of_kind as of_kind_spec, token_at, as_item};
ghost use Rattle.fdt_blob.specs.Items.{item_view, item_view_of};

use crate::blocks::is_zero;
use crate::format::{BEGIN_NODE, END_NODE, NOP, PROP};
use crate::items::Item;

/// A name with the zero behind it has at most so many bytes.
const MAX_TEXT: usize = 32;

/// The number at the front, and the bytes behind it.
fn u32_at(bytes: &[u8]) -> Option<(u32, &[u8])>
    ensures { Gives (λ x. (x.0, x.1.now)) result (number_at bytes.now) }
{
    if bytes.len() < 4 {
        return None;
    }
    let (front, rest) = bytes.split_at(4);
    let number = u32::from_be_bytes([front[0], front[1], front[2], front[3]]);
    Some((number, rest))
}

/// The bytes at the front, and those behind them.
fn take(bytes: &[u8], size: usize) -> Option<(&[u8], &[u8])>
    ensures { Gives (λ x. (x.0.now, x.1.now)) result (part_at size bytes.now) }
{
    if bytes.len() < size {
        return None;
    }
    Some(bytes.split_at(size))
}

/// The bytes behind so many zeros.
#[tactic(auto, unfolding(crate::specs::Reading::behind_zeros))]
fn behind_zeros(bytes: &[u8], count: usize) -> Option<&[u8]>
    ensures { Gives (λ x. x.now) result (behind_zeros_spec count bytes.now) }
{
    let (zeros, rest) = take(bytes, count)?;
    if is_zero(zeros) { Some(rest) } else { None }
}

/// How many bytes lead to the next multiple of 4.
fn padding(size: usize) -> usize
    ensures { result ≡ padding_spec size }
{
    (4 - size % 4) % 4
}

/// The name at the front, which a zero ends. It looks at 32 bytes at most.
#[tactic(auto, unfolding(crate::specs::Reading::text_at))]
fn text_at(bytes: &[u8]) -> Option<&[u8]>
    ensures { Gives (λ x. x.now) result (text_spec bytes.now) }
{
    before_zero(at_most(bytes, MAX_TEXT))
}

/// The first bytes, so many at most.
fn at_most(bytes: &[u8], size: usize) -> &[u8]
    ensures { result.now ≡ take size bytes.now }
{
    if bytes.len() < size {
        bytes
    } else {
        &bytes[..size]
    }
}

/// The bytes before the first zero; none where there is no zero.
#[tactic(auto, using(crate::proofs::Texts::before_zero_by_place))]
fn before_zero(bytes: &[u8]) -> Option<&[u8]>
    ensures { Gives (λ x. x.now) result (before_zero_spec bytes.now) }
{
    let size = first_zero(bytes)?;
    Some(&bytes[..size])
}

/// The place of the first zero.
fn first_zero(bytes: &[u8]) -> Option<usize>
    ensures place { result ≡ position (λ b. b == 0) bytes.now }
    ensures within { IfSome result (λ at. at < length bytes.now) }
{
    bytes.iter().position(|b| *b == 0)
}

/// What belongs to BEGIN_NODE: a name, a zero and zeros up to a multiple of 4.
#[tactic(auto, unfolding(crate::specs::Reading::begun_at))]
fn begun<'a>(bytes: &'a [u8]) -> Option<(Option<Item<'a>>, &'a [u8])>
    ensures { Gives (λ x. (item_view_of x.0, x.1.now)) result (as_item (begun_at bytes.now)) }
{
    let name = text_at(bytes)?;
    let size = name.len() + 1;
    let rest = behind_zeros(behind(bytes, size), padding(size))?;
    Some((Some(Item::Begins(name)), rest))
}

/// What belongs to PROP: the value's length, the name's place among the strings, the value, and zeros up to a multiple
/// of 4.
#[tactic(auto, unfolding(crate::specs::Reading::property_at))]
fn property<'a>(strings: &'a [u8], bytes: &'a [u8]) -> Option<(Option<Item<'a>>, &'a [u8])>
    ensures { Gives (λ x. (item_view_of x.0, x.1.now)) result (as_item (property_at strings.now bytes.now)) }
{
    let (size, rest) = u32_at(bytes)?;
    let (place, rest) = u32_at(rest)?;
    let name = text_at(behind(strings, place as usize))?;
    let (value, rest) = take(rest, size as usize)?;
    let rest = behind_zeros(rest, padding(size as usize))?;
    Some((Some(Item::Holds { name, value }), rest))
}

/// The bytes from a place on; none where it lies past the end.
fn behind(bytes: &[u8], place: usize) -> &[u8]
    ensures { result.now ≡ drop place bytes.now }
{
    if place < bytes.len() {
        &bytes[place..]
    } else {
        &[]
    }
}

/// What belongs to a token of this kind.
#[tactic(auto, unfolding(crate::specs::Reading::of_kind))]
fn of_kind<'a>(
    strings: &'a [u8],
    kind: u32,
    bytes: &'a [u8],
) -> Option<(Option<Item<'a>>, &'a [u8])>
    ensures { Gives (λ x. (item_view_of x.0, x.1.now)) result (as_item (of_kind_spec strings.now kind bytes.now)) }
{
    match kind {
        BEGIN_NODE => begun(bytes),
        END_NODE => Some((Some(Item::Ends), bytes)),
        PROP => property(strings, bytes),
        NOP => Some((None, bytes)),
        _ => None,
    }
}

/// The token at the front, and the bytes behind it; none where no token stands there.
#[tactic(auto, unfolding(crate::specs::Reading::token_at))]
pub(crate) fn next_item<'a>(
    strings: &'a [u8],
    bytes: &'a [u8],
) -> Option<(Option<Item<'a>>, &'a [u8])>
    ensures { Gives (λ x. (item_view_of x.0, x.1.now)) result (as_item (token_at strings.now bytes.now)) }
{
    let (kind, rest) = u32_at(bytes)?;
    of_kind(strings, kind, rest)
}

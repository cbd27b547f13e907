//! Elements of chunk frames, read from any bytes.

ghost use Rattle.std.specs.Prelude.{◌≡◌, ◌%◌, ◌==◌, ◌&&◌, IfOk, nat_eq, nat_le, nat_lt, length};
ghost use Rattle.std.specs.List.{list_all};
ghost use Rattle.ho_base.specs.BitmapCount.{cover};
ghost use Rattle.ho_base.specs.declared.limits.TheConstants.{MAX_ORDER};
ghost use Rattle.record_frames.specs.Rules.{is_element as element_rule, none_from as none_rule};
ghost use Rattle.record_frames.specs.Slots.{Gives};
ghost use Rattle.kho_records.specs.Chunks.{element_view};
ghost use Rattle.kho_records.specs.Fronts.{element_kept};

use crate::chain::sheet::ElementRead;
use ho_base::bytes::get_u64;
use ho_base::limits::MAX_ORDER;
use std::alloc::{AllocError, Global};

/// Whether all bytes are zero.
pub(crate) fn are_zero(bytes: &[u8]) -> bool
    ensures { result ≡ list_all (nat_eq 0) bytes.now }
{
    bytes.iter().all(|b| 0 == *b)
}

/// Whether no bit is set from a number on.
fn none_from(bits: &[u8], from: usize) -> bool
    ensures { result ≡ none_rule bits.now from }
{
    let first = from / 8;
    bits.len() <= first
        || (u32::from(bits[first]) < 1u32 << (from % 8) && are_zero(&bits[first + 1..]))
}

/// Whether there is a bitmap of this order from this base on.
fn has_bitmap(frames: u32, order: u64, base: u64) -> bool
    ensures exact { result ≡ (nat_le order MAX_ORDER && nat_lt base frames && base % cover order == 0) }
{
    order <= u64::from(MAX_ORDER) && base < u64::from(frames) && base % (4096u64 << order) == 0
}

/// Whether an element keeps the rules that it keeps by itself.
fn is_element(frames: u32, order: u64, base: u64, bits: &[u8]) -> bool
    ensures { result ≡ element_rule frames (record { base = base; order = order; bits = bits.now }) }
{
    has_bitmap(frames, order, base)
        && none_from(bits, ((u64::from(frames) - base) >> order) as usize)
}

/// Reads an element of 528 bytes; none where it breaks a rule by itself.
#[tactic(auto, unfolding(crate::specs::Fronts::element_kept))]
pub(crate) fn read_element(
    alloc: Global,
    bytes: &[u8],
    frames: u32,
) -> Result<Option<ElementRead>, AllocError>
    requires { length bytes.now ≡ 528 }
    ensures { IfOk result (λ r. Gives element_view r (element_kept frames bytes.now)) }
{
    let base = get_u64(bytes, 0);
    let order = get_u64(bytes, 8);
    let bitmap = &bytes[16..];
    if !is_element(frames, order, base, bitmap) {
        return Ok(None);
    }
    let mut bits = Vec::new(alloc);
    bits.extend_from_slice(bitmap)?;
    Ok(Some(ElementRead { base, order, bits }))
}

//! Which runs that hold a frame are marked.

ghost use Rattle.std.specs.Prelude.{◌≡◌, ℕ, ◌-◌, ◌%◌, ◌<◌, ◌≤◌, ◌^◌, ◌||◌, length, if◌then◌else◌};
ghost use Rattle.std.specs.List.{list_any};
ghost use Rattle.ho_base.specs.BitmapCount.{cover as cover_rule};
ghost use Rattle.ho_base.specs.declared.limits.TheConstants.{MAX_ORDER};
ghost use Rattle.folio_bitmaps.specs.Bitmaps.{is_set as set_rule};
ghost use Rattle.record_frames.specs.Sheets.{items_of};
ghost use Rattle.record_frames.specs.Rules.{marks as marks_rule};
ghost use Rattle.kho_records.specs.Chunks.{element_view, chunk_views};
ghost use Rattle.kho_records.specs.declared.owners.owner.Owner.TheVariants.{Run as One};
ghost use Rattle.kho_records.specs.Owner.{holder, flag_in, joined, marked_owner as owner_rule};

use crate::chain::{ChunkSheet, ElementRead};
use crate::owners::owner::{Owner, join};

/// How many orders there are.
const ORDERS: u8 = 10;

/// Whether bit `k` is set; bits behind the bytes aren't.
fn is_set(bits: &[u8], k: u64) -> bool
    requires { k < 2 ^ 63 }
    ensures { result ≡ set_rule bits.now k }
{
    match bits.get((k / 8) as usize) {
        Some(byte) => (byte >> (k % 8)) & 1 == 1,
        None => false,
    }
}

/// Whether the element marks the run of this order that begins at `first`.
fn marks(element: &ElementRead, first: u32, order: u8) -> bool
    requires { order ≤ MAX_ORDER }
    ensures { result ≡ marks_rule (record { first = first; order = order }) (element_view element.now) }
{
    let first = u64::from(first);
    let size = 1u64 << order;
    element.order == u64::from(order)
        && element.base <= first
        && first - element.base < 4096 * size
        && (first - element.base) % size == 0
        && is_set(&element.bits, (first - element.base) / size)
}

/// The first frame of the run of this order that may hold frame `p`.
fn first_at(p: u32, order: u8) -> u32
    requires { order ≤ MAX_ORDER }
    ensures { result ≡ p - p % 2 ^ order }
{
    let size = 1u32 << order;
    p - p % size
}

/// Sets the flag of the element's order, if the element marks the run of this order that may hold frame `p`.
fn look_at(flags: &mut [bool], element: &ElementRead, p: u32)
    requires { length flags.old ≡ 10 }
    ensures { (o : ℕ) → o < length flags.old → flag_in flags.new o ≡ (flag_in flags.old o || marks_rule (holder p o) (element_view element.now)) }
{
    if element.order < u64::from(ORDERS) {
        let order = element.order as u8;
        let first = first_at(p, order);
        if marks(element, first, order) {
            flags[order as usize] = true;
        }
    }
}

/// The same for all elements of a chunk frame.
fn look_at_chunk(flags: &mut [bool], chunk: &ChunkSheet, p: u32)
    requires { length flags.old ≡ 10 }
    ensures { (o : ℕ) → o < length flags.old → flag_in flags.new o ≡ (flag_in flags.old o || list_any (λ e. marks_rule (holder p o) (element_view e)) chunk.now.items.items) }
{
    for element in &chunk.items {
        look_at(flags, element, p);
    }
}

/// The same for all elements of the chain.
fn look_at_all(flags: &mut [bool], chunks: &[ChunkSheet], p: u32)
    requires { length flags.old ≡ 10 }
    ensures { (o : ℕ) → o < length flags.old → flag_in flags.new o ≡ (flag_in flags.old o || list_any (λ c. list_any (λ e. marks_rule (holder p o) (element_view e)) c.items.items) chunks.now) }
{
    for chunk in chunks {
        look_at_chunk(flags, chunk, p);
    }
}

/// Which runs are marked, with one more if it is.
fn with_run(is_marked: bool, first: u32, order: u8, marked: Owner) -> Owner
    ensures { result ≡ (if is_marked then joined marked (One first order) else marked) }
{
    if is_marked {
        join(marked, Owner::Run { first, order })
    } else {
        marked
    }
}

/// Which of the ten runs that may hold frame `p` are marked: none, one, or more than one. It looks at each element once.
pub(crate) fn marked_owner(chunks: &[ChunkSheet], p: u32) -> Owner
    ensures { result ≡ owner_rule (items_of (chunk_views chunks.now)) p }
{
    let mut flags = [false; 10];
    look_at_all(&mut flags, chunks, p);
    let mut marked = Owner::Nobody;
    for order in 0..ORDERS {
        let first = first_at(p, order);
        marked = with_run(flags[order as usize], first, order, marked);
    }
    marked
}

//! Bytes of one frame.

ghost use Rattle.std.specs.Prelude.{◌≡◌, ◌+◌, ◌*◌, ◌≤◌, ◌++◌, length, take, drop, replicate, slice_index};
ghost use Rattle.std.specs.List.{flat_map};
ghost use Rattle.ho_base.specs.declared.limits.TheConstants.{PAGE_BYTES};
ghost use Rattle.phys_frames.specs.Memory.{with_bytes, written};
ghost use Rattle.record_frames.specs.Sheets.{number};
ghost use Rattle.record_frames.specs.Writing.{frames_of, holding};

use phys_frames::Folio;

/// Puts numbers one after another from `at` on, each as 8 bytes with the lowest first.
pub(crate) fn put_numbers(folio: &mut Folio, at: usize, numbers: &[u64])
    requires size { length folio.old.bytes ≡ PAGE_BYTES }
    requires room { at + 8 * length numbers.now ≤ PAGE_BYTES }
    ensures { folio.new ≡ with_bytes folio.old (written folio.old.bytes at (flat_map number numbers.now)) }
{
    for i in 0..numbers.len() {
        folio.write(at + 8 * i, &numbers[i].to_le_bytes());
    }
}

/// Puts up to 64 zeros from `at` on.
#[tactic(auto, using(crate::proofs::WrittenBytes::zeros_taken))]
pub(crate) fn put_zeros(folio: &mut Folio, at: usize, count: usize)
    requires few { count ≤ 64 }
    requires size { length folio.old.bytes ≡ PAGE_BYTES }
    requires room { at + count ≤ PAGE_BYTES }
    ensures { folio.new ≡ with_bytes folio.old (written folio.old.bytes at (replicate count 0)) }
{
    folio.write(at, &[0; 64][..count]);
}

/// Begins a frame: the number of the next frame, how many items follow, and zeros.
pub(crate) fn begin_frame(folio: &mut Folio, next: u64, count: u64)
    requires { folio.old.order.0 ≡ 0 }
    ensures { folio.new ≡ holding folio.old (number next ++ number count) }
{
    let _page = folio.bytes();
    folio.zero();
    put_numbers(folio, 0, &[next, count]);
}

/// The number of folio `i`; 0 where there is none.
pub(crate) fn number_at(folios: &[Folio], i: usize) -> u64
    ensures { result ≡ slice_index (frames_of folios.now) i }
{
    match folios.get(i) {
        None => 0,
        Some(folio) => u64::from(folio.first().0),
    }
}

/// The number of the first of `count` folios from `at` on; 0 where they are none.
pub(crate) fn first_number(folios: &[Folio], at: usize, count: usize) -> u64
    ensures { result ≡ slice_index (take count (drop at (frames_of folios.now))) 0 }
{
    if count == 0 { 0 } else { number_at(folios, at) }
}

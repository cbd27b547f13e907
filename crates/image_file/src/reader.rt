//! Frames from an image's bytes.

ghost use Rattle.std.specs.Prelude.{◌≡◌, ◌+◌, ◌*◌, ◌≤◌, IfErr, IfOk, IsTrue, MatchOption, None, OnOk, Some, length, map, ⊤};
ghost use Rattle.std.specs.List.{AllWithin, list_all};
ghost use Rattle.ho_base.specs.declared.limits.TheConstants.{PAGE_BYTES, MIN_FRAMES, MAX_FRAMES};
ghost use Rattle.phys_frames.specs.Memory.{AllHome, IsHome, page_at, with_page, zero_page};
ghost use Rattle.phys_frames.specs.Pages.{chunks, with_run};
ghost use Rattle.image_file.specs.Image.{image, IsSized, has_word, has_header as header_rule, fault_of, fault_told, frames_of, count_of, entry_of, last_of};
ghost use Rattle.image_file.specs.Loaded.{zero_byte};

use crate::header::{HEADER_BYTES, IMAGE_WORD};
use ho_base::bytes::get_u64;
use ho_base::limits::{MAX_FRAMES, MIN_FRAMES, PAGE_BYTES};
use ho_base::numbers::{NoMemory, Pfn};
use phys_frames::Frames;
use std::alloc::Global;

/// Why bytes gave no frames. Of the first three the first that applies is told.
#[derive(Clone, Copy, Debug, PartialEq)]
pub enum ImageError {
    /// Fewer than 32 bytes, or no image's header: another word, fewer than 32 or more than 16,384 frames, or a last
    /// number that isn't 0.
    BadHeader,
    /// Fewer bytes than the header's number of frames takes.
    Short,
    /// More bytes than the header's number of frames takes.
    Extra,
    /// The bytes are an image, and memory for its frames could not be had.
    Memory,
}

/// The frames of an image, all home, and the number of its entry frame, which may be any number. It takes memory for
/// the frames alone, a page of zeros is not copied, and the cost is linear in the bytes.
///
/// # Errors
/// [`ImageError`]: one of the first three exactly where the bytes are no image.
pub fn read_image(alloc: Global, bytes: &[u8]) -> Result<(Frames, u64), ImageError>
    ensures accepted { OnOk result (fault_of bytes.now ≡ None) }
    ensures refused { IfErr result (λ e. fault_of bytes.now ≡ fault_told e) }
    ensures image { IfOk result (λ r. bytes.now ≡ image r.0.pages r.1) }
    ensures pages { IfOk result (λ r. r.0.pages ≡ frames_of bytes.now) }
    ensures entry { IfOk result (λ r. r.1 ≡ entry_of bytes.now) }
    ensures home { IfOk result (λ r. AllHome r.0) }
{
    match fault_in(bytes) {
        Some(fault) => Err(fault),
        None => match frames_in(alloc, bytes) {
            Ok(frames) => Ok((frames, entry_in(bytes))),
            Err(NoMemory) => Err(ImageError::Memory),
        },
    }
}

/// The first fault of these bytes as an image.
fn fault_in(bytes: &[u8]) -> Option<ImageError>
    ensures exact { result ≡ fault_of bytes.now }
    ensures sized { MatchOption result (IsSized bytes.now) (λ _. ⊤) }
{
    if !has_header(bytes) {
        return Some(ImageError::BadHeader);
    }
    let size = HEADER_BYTES + count_in(bytes) as usize * PAGE_BYTES as usize;
    if bytes.len() < size {
        Some(ImageError::Short)
    } else if bytes.len() > size {
        Some(ImageError::Extra)
    } else {
        None
    }
}

/// Whether these bytes begin with a header.
#[tactic(auto, unfolding(crate::specs::Image::has_header))]
pub(crate) fn has_header(bytes: &[u8]) -> bool
    ensures exact { result ≡ header_rule bytes.now }
    ensures long { IsTrue result → 32 ≤ length bytes.now }
    ensures least { IsTrue result → MIN_FRAMES ≤ count_of bytes.now }
    ensures most { IsTrue result → count_of bytes.now ≤ MAX_FRAMES }
{
    bytes.len() >= HEADER_BYTES
        && begins_with_word(bytes)
        && u64::from(MIN_FRAMES) <= count_in(bytes)
        && count_in(bytes) <= u64::from(MAX_FRAMES)
        && last_in(bytes) == 0
}

/// Whether the first 8 bytes are an image's.
#[tactic(auto, unfolding(crate::specs::Image::has_word, crate::specs::Image::image_word))]
fn begins_with_word(bytes: &[u8]) -> bool
    requires { 32 ≤ length bytes.now }
    ensures { result ≡ has_word bytes.now }
{
    &bytes[..8] == IMAGE_WORD.as_slice()
}

/// How many frames a header says.
#[tactic(auto, unfolding(crate::specs::Image::count_of))]
pub(crate) fn count_in(bytes: &[u8]) -> u64
    requires { 32 ≤ length bytes.now }
    ensures { result ≡ count_of bytes.now }
{
    get_u64(bytes, 8)
}

/// The entry number of a header.
#[tactic(auto, unfolding(crate::specs::Image::entry_of))]
pub(crate) fn entry_in(bytes: &[u8]) -> u64
    requires { 32 ≤ length bytes.now }
    ensures { result ≡ entry_of bytes.now }
{
    get_u64(bytes, 16)
}

/// The last number of a header.
#[tactic(auto, unfolding(crate::specs::Image::last_of))]
fn last_in(bytes: &[u8]) -> u64
    requires { 32 ≤ length bytes.now }
    ensures { result ≡ last_of bytes.now }
{
    get_u64(bytes, 24)
}

/// The frames of bytes that have no fault.
fn frames_in(alloc: Global, bytes: &[u8]) -> Result<Frames, NoMemory>
    requires { IsSized bytes.now }
    ensures { IfOk result (λ f. f.pages ≡ frames_of bytes.now) }
{
    let count = count_in(bytes) as u32;
    match Frames::zeroed(alloc, count) {
        Ok(frames) => {
            let mut frames = frames;
            put_pages(&mut frames, 0, count, &bytes[HEADER_BYTES..]);
            Ok(frames)
        }
        Err(NoMemory) => Err(NoMemory),
    }
}

/// Puts bytes into a run of frames of zeros in order.
pub(crate) fn put_pages(frames: &mut Frames, first: u32, many: u32, bytes: &[u8])
    requires within { first + many ≤ length frames.old.pages }
    requires few { first + many ≤ MAX_FRAMES }
    requires blank { AllWithin (λ page. page ≡ Some zero_page) frames.old.pages first (first + many) }
    requires size { length bytes.now ≡ many * PAGE_BYTES }
    ensures { frames.new.pages ≡ with_run frames.old.pages first many (map Some (chunks PAGE_BYTES many bytes.now)) }
{
    for i in 0..many {
        let from = i as usize * PAGE_BYTES as usize;
        put_page(
            frames,
            Pfn(first + i),
            &bytes[from..from + PAGE_BYTES as usize],
        );
    }
}

/// Puts bytes into a frame of zeros. Where they are zeros too the frame is left as it is.
fn put_page(frames: &mut Frames, p: Pfn, bytes: &[u8])
    requires blank { page_at frames.old p ≡ Some zero_page }
    requires size { length bytes.now ≡ PAGE_BYTES }
    ensures { frames.new ≡ with_page frames.old p bytes.now }
{
    if !is_zero(bytes) {
        fill_page(frames, p, bytes);
    }
}

/// Whether all bytes are 0. Each is looked at, so that several are at a time.
fn is_zero(bytes: &[u8]) -> bool
    ensures { result ≡ list_all zero_byte bytes.now }
{
    let mut all = true;
    for b in bytes {
        all &= *b == 0;
    }
    all
}

/// Puts bytes into one frame.
fn fill_page(frames: &mut Frames, p: Pfn, bytes: &[u8])
    requires home { IsHome frames.old p }
    requires size { length bytes.now ≡ PAGE_BYTES }
    ensures { frames.new ≡ with_page frames.old p bytes.now }
{
    frames.page_mut(p).copy_from_slice(bytes);
}

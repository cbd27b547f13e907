//! Frames from what a source gives.

ghost use Rattle.std.specs.Prelude.{◌≡◌, ◌<◌, ◌≤◌, ◌+◌, ◌*◌, [], length, map, take, replicate, IfErr, IfOk, IsTrue, OnErr, OnOk, Some};
ghost use Rattle.std.specs.List.{All, AllWithin, flat_map};
ghost use Rattle.ho_base.specs.declared.limits.TheConstants.{PAGE_BYTES, MIN_FRAMES, MAX_FRAMES};
ghost use Rattle.ho_io.specs.Told.{Rose, Tells, in_front};
ghost use Rattle.phys_frames.specs.Memory.{AllHome, zero_page};
ghost use Rattle.phys_frames.specs.Pages.{chunks, with_run};
ghost use Rattle.image_file.specs.Image.{has_header as header_rule, count_of, page_bytes, IsPage};
ghost use Rattle.image_file.specs.Loaded.{IsCut, IsFaultOf, IsLoaded, IsMiscount, IsOver};

use crate::blocks::{BLOCK_BYTES, BLOCK_FRAMES};
use crate::header::HEADER_BYTES;
use crate::reader::{ImageError, count_in, entry_in, has_header, put_pages};
use ho_base::limits::{MAX_FRAMES, MIN_FRAMES, PAGE_BYTES};
use ho_base::numbers::{Failed, NoMemory};
use ho_io::Source;
use phys_frames::Frames;
use std::alloc::Global;

/// Why a source gave no frames.
#[derive(Clone, Copy, Debug, PartialEq)]
pub enum LoadError {
    /// The source failed.
    Fault,
    /// What it gave is no image, or memory for the frames could not be had.
    Image(ImageError),
}

/// The frames of the image that a source gives, all home, and the number of its entry frame, which may be any number.
/// The source is read to its end, or to one byte more than the image has. It takes memory for the frames alone, a page
/// of zeros is not copied, and the cost is linear in the bytes.
///
/// # Errors
/// [`LoadError::Fault`] only where the source's count of faults rose. [`LoadError::Image`] with the fault of all bytes that
/// were left, or for want of memory for as many frames as the header says; then the rest isn't read.
pub fn load_image<S: Source>(alloc: Global, src: &mut S) -> Result<(Frames, u64), LoadError>
    ensures loaded { IfOk result (λ r. IsLoaded (S.left src.old) r.0.pages r.1) }
    ensures home { IfOk result (λ r. AllHome r.0) }
    ensures refused { IfErr result (λ e. IsFaultOf (S.left src.old) e) }
    ensures cause { IfErr result (λ e. e ≡ LoadError.Fault → Rose (S.faults src.old) (S.faults src.new)) }
    ensures counts { S.faults src.old ≤ S.faults src.new }
{
    let mut head = [0; HEADER_BYTES];
    match load_header(src, &mut head) {
        Ok(()) => {
            let entry = entry_in(&head);
            match load_frames(alloc, src, count_in(&head) as u32) {
                Ok(frames) => Ok((frames, entry)),
                Err(error) => Err(error),
            }
        }
        Err(error) => Err(error),
    }
}

/// Reads a header.
fn load_header<S: Source>(src: &mut S, head: &mut [u8]) -> Result<(), LoadError>
    requires { length head.old ≡ 32 }
    ensures taken { OnOk result (S.left src.old ≡ in_front head.new (S.left src.new)) }
    ensures is { OnOk result (IsTrue (header_rule head.new)) }
    ensures least { OnOk result (MIN_FRAMES ≤ count_of head.new) }
    ensures most { OnOk result (count_of head.new ≤ MAX_FRAMES) }
    ensures refused { IfErr result (λ e. IsFaultOf (S.left src.old) e) }
    ensures cause { IfErr result (λ e. e ≡ LoadError.Fault → Rose (S.faults src.old) (S.faults src.new)) }
    ensures counts { S.faults src.old ≤ S.faults src.new }
{
    match read_full(src, head) {
        Ok(count) => {
            if has_header(&head[..count]) {
                Ok(())
            } else {
                Err(LoadError::Image(ImageError::BadHeader))
            }
        }
        Err(_) => Err(LoadError::Fault),
    }
}

/// So many frames of what is left of a source, which is as many pages.
fn load_frames<S: Source>(alloc: Global, src: &mut S, count: u32) -> Result<Frames, LoadError>
    requires least { MIN_FRAMES ≤ count }
    requires most { count ≤ MAX_FRAMES }
    ensures all { IfOk result (λ f. Tells (S.left src.old) (flat_map page_bytes f.pages)) }
    ensures pages { IfOk result (λ f. All (IsPage PAGE_BYTES) f.pages) }
    ensures count { IfOk result (λ f. length f.pages ≡ count) }
    ensures home { IfOk result (λ f. AllHome f) }
    ensures refused { IfErr result (λ e. IsMiscount (S.left src.old) (count * PAGE_BYTES) e) }
    ensures cause { IfErr result (λ e. e ≡ LoadError.Fault → Rose (S.faults src.old) (S.faults src.new)) }
    ensures counts { S.faults src.old ≤ S.faults src.new }
{
    match Frames::zeroed(alloc, count) {
        Ok(frames) => {
            let mut frames = frames;
            match load_pages(src, &mut frames, count) {
                Ok(()) => Ok(frames),
                Err(error) => {
                    frames.end();
                    Err(error)
                }
            }
        }
        Err(NoMemory) => Err(LoadError::Image(ImageError::Memory)),
    }
}

/// Reads pages into all frames in order, those of 16 at a time, and sees that nothing is left then.
fn load_pages<S: Source>(src: &mut S, frames: &mut Frames, count: u32) -> Result<(), LoadError>
    requires pages { frames.old.pages ≡ replicate count (Some zero_page) }
    requires most { count ≤ MAX_FRAMES }
    ensures all { OnOk result (Tells (S.left src.old) (flat_map page_bytes frames.new.pages)) }
    ensures pages { All (IsPage PAGE_BYTES) frames.new.pages }
    ensures count { length frames.new.pages ≡ count }
    ensures home { AllHome frames.new }
    ensures refused { IfErr result (λ e. IsMiscount (S.left src.old) (count * PAGE_BYTES) e) }
    ensures cause { IfErr result (λ e. e ≡ LoadError.Fault → Rose (S.faults src.old) (S.faults src.new)) }
    ensures counts { S.faults src.old ≤ S.faults src.new }
{
    let mut block = [0; BLOCK_BYTES];
    let mut done = 0;
    while done < count {
        let many = BLOCK_FRAMES.min(count - done);
        let len = many as usize * PAGE_BYTES as usize;
        match load_block(src, frames, done, many, &mut block[..len]) {
            Ok(()) => done += many,
            Err(error) => return Err(error),
        }
    }
    see_end(src)
}

/// Reads the bytes of a run of frames of zeros in one piece, and puts them there. Where they are cut short the frames
/// stay as they are.
fn load_block<S: Source>(
    src: &mut S,
    frames: &mut Frames,
    first: u32,
    many: u32,
    block: &mut [u8],
) -> Result<(), LoadError>
    requires within { first + many ≤ length frames.old.pages }
    requires few { first + many ≤ MAX_FRAMES }
    requires blank { AllWithin (λ page. page ≡ Some zero_page) frames.old.pages first (first + many) }
    requires size { length block.old ≡ many * PAGE_BYTES }
    ensures taken { OnOk result (S.left src.old ≡ in_front block.new (S.left src.new)) }
    ensures filled { OnOk result (frames.new.pages ≡ with_run frames.old.pages first many (map Some (chunks PAGE_BYTES many block.new))) }
    ensures kept { OnErr result (frames.new ≡ frames.old) }
    ensures cut { IfErr result (λ e. IsCut (S.left src.old) (many * PAGE_BYTES) e) }
    ensures cause { IfErr result (λ e. e ≡ LoadError.Fault → Rose (S.faults src.old) (S.faults src.new)) }
    ensures counts { S.faults src.old ≤ S.faults src.new }
{
    match read_full(src, block) {
        Ok(count) => {
            if count < block.len() {
                return Err(LoadError::Image(ImageError::Short));
            }
            put_pages(frames, first, many, block);
            Ok(())
        }
        Err(_) => Err(LoadError::Fault),
    }
}

/// Sees that nothing is left of a source, by asking for one byte.
fn see_end<S: Source>(src: &mut S) -> Result<(), LoadError>
    ensures end { OnOk result (Tells (S.left src.old) []) }
    ensures over { IfErr result (λ e. IsOver (S.left src.old) e) }
    ensures cause { IfErr result (λ e. e ≡ LoadError.Fault → Rose (S.faults src.old) (S.faults src.new)) }
    ensures counts { S.faults src.old ≤ S.faults src.new }
{
    let mut byte = [0];
    match read_full(src, &mut byte) {
        Ok(0) => Ok(()),
        Ok(_) => Err(LoadError::Image(ImageError::Extra)),
        Err(_) => Err(LoadError::Fault),
    }
}

/// Reads bytes until `buf` is full or the source ends, and gives their number.
fn read_full<S: Source>(src: &mut S, buf: &mut [u8]) -> Result<usize, Failed>
    ensures bound { IfOk result (λ n. n ≤ length buf.new) }
    ensures taken { IfOk result (λ n. S.left src.old ≡ in_front (take n buf.new) (S.left src.new)) }
    ensures end { IfOk result (λ n. n < length buf.new → Tells (S.left src.new) []) }
    ensures counts { S.faults src.old ≤ S.faults src.new }
    ensures cause { OnErr result (Rose (S.faults src.old) (S.faults src.new)) }
{
    let mut done = 0;
    while done < buf.len() {
        match src.read(&mut buf[done..]) {
            Ok(0) => return Ok(done),
            Ok(count) => done += count,
            Err(failed) => return Err(failed),
        }
    }
    Ok(done)
}

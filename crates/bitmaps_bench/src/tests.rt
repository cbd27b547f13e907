//! The tracker and its chain at worked values.

ghost use Rattle.std.specs.Prelude.{◌≡◌, ◌+◌, ◌*◌, ◌<◌, ◌≤◌, All, length};
ghost use Rattle.ho_base.specs.declared.limits.TheConstants.{MAX_FRAMES, MIN_FRAMES};
ghost use Rattle.phys_frames.specs.Memory.{AllHome};

use crate::folios::{give_folios, take_folios};
use folio_bitmaps::{ChainError, Tracker, chunk_count, read_chain};
use ho_base::bytes::get_u64;
use ho_base::numbers::{Order, Pfn};
use phys_frames::Frames;
use std::alloc::Global;
use std::process::Abort;

/// Writes the chain of a tracker and extra frames into the frames from 1 on.
fn write(rt: &impl Abort, alloc: Global, frames: &mut Frames, tracker: &Tracker, extra: &[Pfn])
    requires home { AllHome frames.old }
    requires count { length frames.old.pages ≡ tracker.now.frames }
    requires extra { All (λ p. p.0 < tracker.now.frames) extra.now }
    ensures home { AllHome frames.new }
    ensures size { length frames.new.pages ≡ length frames.old.pages }
{
    let count = chunk_count(frames.count());
    assert!(rt; count < frames.count());
    let mut folios = take_folios(alloc, frames, count).expect(rt, "memory");
    tracker.write_chain(extra, folios.as_mut_slice());
    give_folios(folios, frames);
}

/// The byte of a chunk frame at which byte `j` of bitmap `k` stands.
fn place_of(k: usize, j: usize) -> usize
    requires few { (k < 7) × (j < 512) }
    ensures { result ≡ 48 + 528 * k + j }
{
    48 + 528 * k + j
}

/// Byte `j` of bitmap `t` where frame 9 alone and the four frames from 16 on are marked.
fn two_marks_byte(t: usize, j: usize) -> u8 {
    match (t, j) {
        (0, 1) => 0x02,
        (2, 0) => 0x10,
        _ => 0,
    }
}

/// Two marks, and the bytes of the bitmaps.
#[test]
fn two_marks(rt: HostRuntime) {
    let alloc = rt.alloc();
    let mut tracker = Tracker::new(alloc, 64).expect(&rt, "memory");
    tracker.mark(Pfn(9), Order(0));
    tracker.mark(Pfn(16), Order(2));
    let mut frames = Frames::zeroed(alloc, 64).expect(&rt, "memory");
    assert!(rt; frames.all_home());
    write(&rt, alloc, &mut frames, &tracker, [].as_slice());
    assert!(rt; frames.all_home());
    for i in 0..2u32 {
        let page = frames.page(Pfn(1 + i));
        for k in 0..7usize {
            let t = 7 * i as usize + k;
            let order = if t < 10 { t as u64 } else { 0 };
            assert_eq!(rt; get_u64(page, 40 + 528 * k), order, "at {t}");
            for j in 0..512usize {
                assert_eq!(rt; page[place_of(k, j)], two_marks_byte(t, j), "at {t}, {j}");
            }
        }
    }
    frames.end();
    assert!(rt; tracker.has(Pfn(9), Order(0)));
    assert!(rt; !tracker.has(Pfn(9), Order(1)));
    tracker.unmark(Pfn(9), Order(0));
    assert!(rt; !tracker.has(Pfn(9), Order(0)));
}

/// How many bitmaps the chain of so many frames has, by what its chunk frames say.
fn bitmaps_in_chain(rt: &impl Abort, alloc: Global, n: u32) -> u64
    requires at_least { MIN_FRAMES ≤ n }
    requires at_most { n ≤ MAX_FRAMES }
{
    let mut frames = Frames::zeroed(alloc, n).expect(rt, "memory");
    let tracker = Tracker::new(alloc, n).expect(rt, "memory");
    write(rt, alloc, &mut frames, &tracker, [].as_slice());
    assert!(rt; frames.all_home());
    let chunks = chunk_count(n);
    assert!(rt; chunks < frames.count());
    let mut count = 0u64;
    for i in 0..chunks {
        count = count.saturating_add(get_u64(frames.page(Pfn(1 + i)), 8));
    }
    frames.end();
    count
}

#[test]
fn bitmaps_are_counted(rt: HostRuntime) {
    for frames in [32, 4096, 4097, 8193, 16_384] {
        assert_eq!(rt; chunk_count(frames), 2, "at {frames}");
    }
    let alloc = rt.alloc();
    assert_eq!(rt; bitmaps_in_chain(&rt, alloc, 32), 10);
    assert_eq!(rt; bitmaps_in_chain(&rt, alloc, 4096), 10);
    assert_eq!(rt; bitmaps_in_chain(&rt, alloc, 4097), 11);
    assert_eq!(rt; bitmaps_in_chain(&rt, alloc, 8193), 13);
    assert_eq!(rt; bitmaps_in_chain(&rt, alloc, 16_384), 14);
}

/// Frames with the chain of a tracker of three runs and an extra frame, from frame 1 on.
fn frames_with_chain(rt: &impl Abort, alloc: Global, n: u32) -> Frames
    requires at_least { MIN_FRAMES ≤ n }
    requires at_most { n ≤ MAX_FRAMES }
    ensures home { AllHome result }
{
    let mut frames = Frames::zeroed(alloc, n).expect(rt, "memory");
    let mut tracker = Tracker::new(alloc, n).expect(rt, "memory");
    tracker.mark(Pfn(9), Order(0));
    tracker.mark(Pfn(16), Order(2));
    tracker.mark(Pfn(n - 1), Order(0));
    write(rt, alloc, &mut frames, &tracker, [Pfn(5)].as_slice());
    assert!(rt; frames.all_home());
    frames
}

/// What was written reads back: the runs that were marked and the extra frame, and no others.
fn reads_back(rt: &impl Abort, alloc: Global, n: u32)
    requires at_least { MIN_FRAMES ≤ n }
    requires at_most { n ≤ MAX_FRAMES }
{
    let frames = frames_with_chain(rt, alloc, n);
    let chain = read_chain(alloc, &frames, 1).expect(rt, "chain");
    assert_eq!(rt; chain.chunks.as_slice(), [Pfn(1), Pfn(2)].as_slice());
    for p in 0..n {
        let alone = p == 5 || p == 9 || p == n - 1;
        assert_eq!(rt; chain.tracker.has(Pfn(p), Order(0)), alone, "at {p}");
        assert_eq!(rt; chain.tracker.has(Pfn(p), Order(2)), p == 16, "at {p}");
    }
    frames.end();
}

#[test]
fn chains_read_back(rt: HostRuntime) {
    reads_back(&rt, rt.alloc(), 32);
    reads_back(&rt, rt.alloc(), 4096);
    reads_back(&rt, rt.alloc(), 16_384);
}

/// Puts a byte in place of another one, which it answers: 0 where there is none.
fn replace(frames: &mut Frames, frame: u32, at: usize, byte: u8) -> u8
    requires { AllHome frames.old }
{
    if frame >= frames.count() || at >= 4096 {
        return 0;
    }
    let page = frames.page_mut(Pfn(frame));
    let old = page[at];
    page[at] = byte;
    old
}

/// The number that breaks a rule; none where none does.
fn first_bad(alloc: Global, frames: &Frames) -> Option<u64>
    requires { AllHome frames.now }
{
    match read_chain(alloc, frames, 1) {
        Err(ChainError::BadChain(number)) => Some(number),
        _ => None,
    }
}

/// Each changed byte of a chain of 64 frames breaks a rule at the first number that has to do with it: a next that is
/// past the last frame or repeats, a count of 0 or 8, a byte that isn't zero, a base that isn't a multiple, an order
/// that doesn't rise, a bit past the last frame, a bitmap twice. Bytes after the last element are ignored.
#[test]
fn broken_chains_are_refused(rt: HostRuntime) {
    let mut frames = frames_with_chain(&rt, rt.alloc(), 64);
    for (frame, at, byte, bad) in [
        (1, 0, 64, Some(64)),
        (1, 7, 1, Some(0x0100_0000_0000_0002)),
        (1, 0, 1, Some(1)),
        (2, 0, 1, Some(1)),
        (2, 0, 2, Some(2)),
        (1, 8, 0, Some(1)),
        (2, 8, 8, Some(2)),
        (1, 16, 1, Some(1)),
        (1, 31, 1, Some(1)),
        (2, 32, 1, Some(2)),
        (2, 40, 6, Some(2)),
        (2, 40, 10, Some(2)),
        (1, 56, 1, Some(1)),
        (1, 55, 0x80, None),
        (2, 4095, 1, None),
    ] {
        assert!(rt; frames.all_home());
        let old = replace(&mut frames, frame, at, byte);
        assert!(rt; frames.all_home());
        assert_eq!(rt; first_bad(rt.alloc(), &frames), bad, "at {frame}, {at}");
        replace(&mut frames, frame, at, old);
    }
    assert!(rt; frames.all_home());
    assert_eq!(rt; first_bad(rt.alloc(), &frames), None);
    frames.end();
}

//! Runs of frames that are taken, written and given back.

ghost use Rattle.std.specs.Prelude.{◌≡◌};

use ho_base::numbers::{Order, Pfn};
use phys_frames::{Folio, Frames};

/// What can move between threads.
fn moves<T: Send>(value: T) -> T
    ensures { result ≡ value }
{
    value
}

#[test]
fn two_runs_at_once(rt: HostRuntime) {
    let mut frames = Frames::zeroed(rt.alloc(), 1024).expect(&rt, "memory");
    let mut low = frames.take(Pfn(0), Order(9));
    let mut high = frames.take(Pfn(512), Order(9));
    low.bytes_mut()[2_097_151] = 0xaa;
    high.bytes_mut()[0] = 0xbb;
    assert!(rt; !frames.all_home());
    frames.give(moves(high));
    frames.give(moves(low));
    assert_eq!(rt; frames.page(Pfn(511))[4095], 0xaa);
    assert_eq!(rt; frames.page(Pfn(511))[4094], 0);
    assert_eq!(rt; frames.page(Pfn(512))[0], 0xbb);
    assert_eq!(rt; frames.page(Pfn(512))[1], 0);
    assert!(rt; frames.all_home());
    moves(frames).end();
}

#[test]
fn each_call_does_its_work(rt: HostRuntime) {
    let mut frames = Frames::zeroed(rt.alloc(), 32).expect(&rt, "memory");
    let mut other = Frames::zeroed(rt.alloc(), 32).expect(&rt, "memory");
    frames.apart(&mut other);
    other.page_mut(Pfn(31))[4095] = 1;
    assert_eq!(rt; other.page(Pfn(31))[4095], 1);
    assert_eq!(rt; frames.page(Pfn(31))[4095], 0);
    assert_eq!(rt; frames.count(), 32);
    let mut run = frames.take(Pfn(2), Order(1));
    let mut next = frames.take(Pfn(4), Order(1));
    run.apart(&mut next);
    assert_eq!(rt; run.first(), Pfn(2));
    assert_eq!(rt; run.order(), Order(1));
    run.write(4094, b"run");
    assert_eq!(rt; run.bytes()[4096], b'n');
    run.zero();
    assert_eq!(rt; run.bytes()[4096], 0);
    frames.give(run);
    frames.give(next);
    assert!(rt; frames.all_home());
    frames.end();
    assert!(rt; other.all_home());
    other.end();
}

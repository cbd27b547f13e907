ghost use Rattle.std.specs.Prelude.{◌≡◌};

use ho_base::numbers::{AgentNo, Kind, ObjectNo, Order};
use ho_events::chronicle::Recorded;
use ho_events::slip::{At, Listed, Slip};
use memfd_file::{Facts, FileObject};
use phys_frames::Frames;

/// Agent 1 in kernel 0, in its first command, after stamp 4.
fn at() -> At
    ensures { result.last ≡ 4 }
{
    At {
        kernel: 0,
        agent: AgentNo(1),
        command: 1,
        last: 4,
    }
}

#[test]
fn a_new_file_is_an_open_memfd_of_no_bytes(rt: HostRuntime) {
    let mut frames = Frames::zeroed(rt.alloc(), 32).expect(&rt, "memory");
    let mut file = FileObject::absent(ObjectNo(38), frames.home(), rt.alloc());
    assert!(rt; !file.is_present());
    assert_eq!(rt; file.facts(), None);
    file.reserve(1, 0).expect(&rt, "memory");
    let slip = Slip::make(rt.alloc(), at(), Listed::nothing()).expect(&rt, "memory");
    assert!(rt; file.last_stamp() < 9);
    let turned = file.init(rt.alloc(), slip, Kind::Memfd, Order(0), 0);
    assert_eq!(rt; turned.entry.stamp, 5);
    let facts = Facts {
        kind: Kind::Memfd,
        order: Order(0),
        size: 0,
        position: 0,
        opened: true,
        pin: false,
        hold: false,
    };
    assert_eq!(rt; file.facts(), Some(facts));
    assert!(rt; file.is_open());
    assert!(rt; !file.is_pinned());
    assert_eq!(rt; file.run(0), None);
    assert_eq!(rt; file.entries().len(), 1);
    assert_eq!(rt; file.last_stamp(), 5);
    file.scrap(&mut frames);
    assert!(rt; frames.all_home());
    frames.end();
}

//! What the frames after the first path carry.

use crate::first_path::{ENTRY, FRAMES, first_path};
use ho_base::numbers::{Kind, Order, Pfn, Token};
use ho_base::shape::Area;
use kho_records::survey;
use std::process::Abort;

#[test]
fn frames_of_the_first_path_carry_its_session(rt: HostRuntime) {
    let frames = first_path(rt.alloc()).expect(&rt, "memory");

    let carried = survey(rt.alloc(), &frames, u64::from(ENTRY)).expect(&rt, "a state");
    frames.end();
    assert_eq!(rt; carried.shape.frames(), FRAMES);
    assert_eq!(rt;
        carried.shape.scratch(),
        [Area {
            first: Pfn(1),
            count: 8
        }]
        .as_slice()
    );
    assert_eq!(rt; carried.number, 1);
    assert_eq!(rt; carried.bounds.len(), 0);
    let sessions = carried.sessions.as_slice();
    assert_eq!(rt; sessions.len(), 1);
    let Some(session) = sessions.first() else {
        return;
    };
    assert_eq!(rt; session.name.as_bytes(), b"s".as_slice());
    let files = session.files.as_slice();
    assert_eq!(rt; files.len(), 1);
    let Some(file) = files.first() else {
        return;
    };
    assert_eq!(rt; file.token, Token(7));
    assert_eq!(rt; file.kind, Kind::Memfd);
    assert_eq!(rt; file.order, Order(0));
    assert_eq!(rt; file.size, 5);
    assert_eq!(rt; file.position, 0);
    assert_eq!(rt; file.handle, 0);
    assert_eq!(rt; file.runs.as_slice(), [Pfn(9)].as_slice());
}

//! What frames hold between two kernels.

use crate::run::run;
use crate::status::Status;
use crate::tests::host_of;
use crate::tests::images::{SCRIPT, image_words};
use ho_base::numbers::{Kind, Token};
use image_file::read_image;
use kho_records::survey;
use std::test::Fail;

#[test]
fn frames_carry_a_session_between_two_kernels(rt: HostRuntime) -> Result<(), Fail> {
    let alloc = rt.alloc();
    let mut host = host_of(alloc, SCRIPT, [].as_slice())?;
    assert_eq!(rt;
        run(alloc, image_words(alloc)?.as_slice(), &mut host),
        Status::Done
    );
    let made = host.made();
    assert_eq!(rt; made.len(), 2);
    let (frames, entry) = read_image(alloc, made[0].1.as_slice()).expect(&rt, "an image");
    let carried = survey(alloc, &frames, entry).expect(&rt, "a state");
    assert_eq!(rt; carried.number, 1);
    let sessions = carried.sessions.as_slice();
    assert_eq!(rt; sessions.len(), 1);
    assert_eq!(rt; sessions[0].name.as_bytes(), b"s".as_slice());
    let files = sessions[0].files.as_slice();
    assert_eq!(rt; files.len(), 1);
    assert_eq!(rt; files[0].token, Token(7));
    assert_eq!(rt; files[0].kind, Kind::Memfd);
    assert_eq!(rt; files[0].size, 5);
    let runs = files[0].runs.as_slice();
    assert_eq!(rt; runs.len(), 1);
    assert!(rt; runs[0].0 < frames.count());
    assert!(rt; frames.page(runs[0]).starts_with(b"hello"));
    frames.end();
    Ok(())
}

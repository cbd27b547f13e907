//! Images that a run makes.

use crate::run::run;
use crate::status::Status;
use crate::tests::{host_of, run_words};
use std::alloc::{AllocError, Global};
use std::test::Fail;

// Two kexecs, of which the second finds too small a scratch area, and a third.
pub const SCRIPT: &[u8] = b"machine 32\n\
scratch 1 4\n\
round\n\
agent a\n\
memfd m 0\n\
write m 0 68656c6c6f\n\
create s\n\
preserve s 7 m\n\
kexec 1 4\n\
kexec 1 5\n\
kexec 2 4\n";

// The words of a run of `s` with images.
pub fn image_words(alloc: Global) -> Result<Vec<String>, AllocError> {
    let mut words = run_words(alloc)?;
    words.push(String::from_str(alloc, "--images")?)?;
    words.push(String::from_str(alloc, "k")?)?;
    Ok(words)
}

#[test]
fn each_kernel_that_ends_leaves_an_image(rt: HostRuntime) -> Result<(), Fail> {
    let alloc = rt.alloc();
    let mut plain = host_of(alloc, SCRIPT, [].as_slice())?;
    assert_eq!(rt;
        run(alloc, run_words(alloc)?.as_slice(), &mut plain),
        Status::Done
    );
    assert_eq!(rt; plain.made().len(), 0);
    let mut host = host_of(alloc, SCRIPT, [].as_slice())?;
    assert_eq!(rt;
        run(alloc, image_words(alloc)?.as_slice(), &mut host),
        Status::Done
    );
    assert_eq!(rt; host.out(), plain.out());
    let made = host.made();
    assert_eq!(rt; made.len(), 2);
    assert_eq!(rt; made[0].0.as_str(), "k.1");
    assert_eq!(rt; made[1].0.as_str(), "k.2");
    assert_eq!(rt; made[0].1.len(), 32 + 32 * 4096);
    assert_eq!(rt; made[1].1.len(), 32 + 32 * 4096);
    assert!(rt; made[0].1.as_slice().starts_with(b"KHOIMG1\n".as_slice()));
    Ok(())
}

#[test]
fn an_image_that_cannot_be_made_ends_the_run(rt: HostRuntime) -> Result<(), Fail> {
    let alloc = rt.alloc();
    let words = image_words(alloc)?;
    // The first call opens the script, the second writes the round, the third makes the image.
    let mut host = host_of(alloc, SCRIPT, [(0, 3)].as_slice())?;
    assert_eq!(rt; run(alloc, words.as_slice(), &mut host), Status::WriteFault);
    assert_eq!(rt; host.made().len(), 0);
    // The first sink's second write is that of its first frame. The script is the first of what the host gives.
    let mut short = host_of(alloc, SCRIPT, [(2, 2)].as_slice())?;
    assert_eq!(rt;
        run(alloc, words.as_slice(), &mut short),
        Status::WriteFault
    );
    let made = short.made();
    assert_eq!(rt; made.len(), 1);
    assert_eq!(rt; made[0].1.len(), 32);
    assert_eq!(rt; short.out(), host.out());
    Ok(())
}

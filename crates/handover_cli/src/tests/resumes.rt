//! Runs that go on from an image.

use crate::run::run;
use crate::status::Status;
use crate::tests::host_of;
use crate::tests::images::{SCRIPT, image_words};
use ho_io::MemHost;
use std::alloc::{AllocError, Global};
use std::test::Fail;

// What is done with the file that the first image carries.
const RESUMED: &[u8] = b"round\n\
agent a\n\
open s\n\
retrieve s 7 r\n\
read r 0 5\n\
finish s\n";

const RESUMED_HISTORY: &[u8] = b"0 1 1 1 reg open s = Ok s16\n\
0 2 1 1 s16 open s = Ok\n\
0 3 1 1 self done = Ok\n\
0 4 1 2 reg find_in s = Ok s16\n\
0 5 1 2 f0 open_held = Ok\n\
0 6 1 2 s16 take s 7 = Ok f0\n\
0 7 1 2 self done = Ok\n\
0 8 1 3 f0 read 0 5 = Ok 68656c6c6f\n\
0 9 1 3 self done = Ok 68656c6c6f\n\
0 10 1 4 reg find_in s = Ok s16\n\
0 11 1 4 f0 finish = Kept\n\
0 12 1 4 s16 finish s = Ok\n\
0 13 1 4 reg drop_in s = Ok\n\
0 14 1 4 self done = Ok\n";

// The words that resume the script `s` from the image `k`.
fn resume_words(alloc: Global) -> Result<Vec<String>, AllocError> {
    let mut words = Vec::new(alloc);
    for word in ["resume", "k", "s"] {
        words.push(String::from_str(alloc, word)?)?;
    }
    Ok(words)
}

// The bytes of the image of the first kernel that ends.
fn first_image(alloc: Global) -> Result<Vec<u8>, AllocError> {
    let mut host = host_of(alloc, SCRIPT, [].as_slice())?;
    let _ = run(alloc, image_words(alloc)?.as_slice(), &mut host);
    match host.made().first() {
        Some((_, bytes)) => Vec::from_slice(alloc, bytes.as_slice()),
        None => Ok(Vec::new(alloc)),
    }
}

// A host that holds the script that resumes and these bytes as the image.
fn host_with(alloc: Global, image: &[u8], fails: &[(u32, u64)]) -> Result<MemHost, AllocError> {
    let mut holds = Vec::new(alloc);
    holds.push((
        String::from_str(alloc, "s")?,
        Vec::from_slice(alloc, RESUMED)?,
    ))?;
    holds.push((
        String::from_str(alloc, "k")?,
        Vec::from_slice(alloc, image)?,
    ))?;
    Ok(MemHost::new(holds, Vec::from_slice(alloc, fails)?))
}

#[test]
fn a_kernel_begins_with_what_an_image_carries(rt: HostRuntime) -> Result<(), Fail> {
    let alloc = rt.alloc();
    let image = first_image(alloc)?;
    let words = resume_words(alloc)?;
    let mut host = host_with(alloc, image.as_slice(), [].as_slice())?;
    assert_eq!(rt; run(alloc, words.as_slice(), &mut host), Status::Done);
    assert_eq!(rt; host.out(), RESUMED_HISTORY);
    Ok(())
}

#[test]
fn a_damaged_image_is_refused(rt: HostRuntime) -> Result<(), Fail> {
    let alloc = rt.alloc();
    let mut image = first_image(alloc)?;
    image.pop();
    let words = resume_words(alloc)?;
    let cases: [(&[u8], &[u8]); 2] = [
        (b"KHOIMG1\n", b"image refused: header\n"),
        (image.as_slice(), b"image refused: short\n"),
    ];
    for (bytes, line) in cases {
        let mut host = host_with(alloc, bytes, [].as_slice())?;
        assert_eq!(rt; run(alloc, words.as_slice(), &mut host), Status::Image);
        assert_eq!(rt; host.out(), line);
    }
    Ok(())
}

#[test]
fn an_image_that_cannot_be_read_ends_the_run(rt: HostRuntime) -> Result<(), Fail> {
    let alloc = rt.alloc();
    let image = first_image(alloc)?;
    let words = resume_words(alloc)?;
    // The first call opens the script, the second the image.
    let mut host = host_with(alloc, image.as_slice(), [(0, 2)].as_slice())?;
    assert_eq!(rt; run(alloc, words.as_slice(), &mut host), Status::ReadFault);
    assert_eq!(rt; host.out(), b"".as_slice());
    Ok(())
}

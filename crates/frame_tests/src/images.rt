//! What no clause says: an image's bytes as they stand in a file, and that calls succeed with ample memory.

ghost use Rattle.std.specs.Prelude.{◌≡◌, IfOk};

use ho_base::bytes::put_u64;
use ho_base::numbers::Pfn;
use ho_base::shape::{Area, Shape};
use ho_io::{Host, MemHost, MemSource};
use image_file::{ImageError, LoadError, law_of_images, load_image, read_image, write_image};
use phys_frames::Frames;
use scratch_area::Handoff;
use std::alloc::{AllocError, Global};
use std::test::Fail;

/// The shape of 64 frames with the scratch area 1 to 8.
fn shape_of_64(alloc: Global) -> Result<Shape, Fail>
    ensures { IfOk result (λ shape. shape.frames ≡ 64) }
{
    let areas = [Area {
        first: Pfn(1),
        count: 8,
    }];
    let areas = Vec::from_slice(alloc, areas.as_slice())?;
    match Shape::checked(64, areas) {
        Ok(shape) => Ok(shape),
        Err(_) => Err("refused".into()),
    }
}

/// Whether an image was written to a sink whose call of this number fails, and the bytes that the sink has then.
fn written(alloc: Global, handoff: &Handoff, fails: u64) -> Option<(bool, Vec<u8>)> {
    let plan = Vec::from_slice(alloc, [(1, fails)].as_slice()).ok()?;
    let mut host = MemHost::new(Vec::new(alloc), plan);
    let mut sink = host.make("image").ok()?;
    let done = write_image(&mut sink, handoff).is_ok();
    host.shut_dst(sink);
    let (_, bytes) = host.made().first()?;
    let bytes = Vec::from_slice(alloc, bytes.as_slice()).ok()?;
    Some((done, bytes))
}

/// The entry number that is read, or why nothing is.
fn entry_in(alloc: Global, bytes: &[u8]) -> Result<u64, ImageError> {
    match read_image(alloc, bytes) {
        Ok((frames, entry)) => {
            frames.end();
            Ok(entry)
        }
        Err(error) => Err(error),
    }
}

/// The entry number that is read from a source of these bytes, or why nothing is; a source doesn't fail by itself.
fn loaded_in(alloc: Global, bytes: &[u8]) -> Result<u64, ImageError> {
    let Ok(bytes) = Vec::from_slice(alloc, bytes) else {
        return Err(ImageError::Memory);
    };
    let mut source = MemSource::new(bytes, Vec::new(alloc));
    match load_image(alloc, &mut source) {
        Ok((frames, entry)) => {
            frames.end();
            Ok(entry)
        }
        Err(LoadError::Image(error)) => Err(error),
        Err(LoadError::Fault) => Err(ImageError::Memory),
    }
}

/// So many bytes: a header with another first byte and these numbers, and then zeros.
fn bytes_of(
    alloc: Global,
    len: usize,
    first: u8,
    numbers: [u64; 3],
) -> Result<Vec<u8>, AllocError> {
    let mut bytes = vec![in alloc; 0u8; len.max(32)]?;
    bytes[..8].copy_from_slice(b"KHOIMG1\n");
    bytes[0] = first;
    put_u64(&mut bytes, 8, numbers[0]);
    put_u64(&mut bytes, 16, numbers[1]);
    put_u64(&mut bytes, 24, numbers[2]);
    bytes.truncate(len);
    Ok(bytes)
}

#[test]
fn an_image_is_written_and_read_back(rt: HostRuntime) -> Result<(), Fail> {
    law_of_images();
    let shape = shape_of_64(rt.alloc())?;
    let mut frames = Frames::zeroed(rt.alloc(), 64).expect(&rt, "memory");
    frames.page_mut(Pfn(63))[4095] = 7;
    assert!(rt; frames.all_home());
    let handoff = Handoff {
        frames,
        shape,
        entry: Pfn(9),
    };
    for (fails, len) in [(0, 262_176), (1, 0), (2, 32), (4, 131_104), (5, 196_640)] {
        let (done, image) = written(rt.alloc(), &handoff, fails).expect(&rt, "memory");
        assert_eq!(rt; done, fails == 0, "at {fails}");
        assert_eq!(rt; image.len(), len, "at {fails}");
        if len > 16 {
            assert_eq!(rt; &image[..16], b"KHOIMG1\n\x40\0\0\0\0\0\0\0".as_slice());
        }
        if done {
            let (copy, entry) = read_image(rt.alloc(), &image).expect(&rt, "an image");
            assert_eq!(rt; entry, 9);
            assert_eq!(rt; copy.count(), 64);
            copy.end();
            assert_eq!(rt; image.get(262_175).copied(), Some(7));
        }
    }
    let Handoff {
        frames,
        shape: _,
        entry: _,
    } = handoff;
    frames.end();
    Ok(())
}

#[test]
fn bytes_are_read_or_refused(rt: HostRuntime) -> Result<(), Fail> {
    for (len, first, numbers, want) in [
        (131_104, b'K', [32, 7, 0], Ok(7)),
        (131_104, b'K', [32, u64::MAX, 0], Ok(u64::MAX)),
        (131_103, b'K', [32, 7, 0], Err(ImageError::Short)),
        (131_105, b'K', [32, 7, 0], Err(ImageError::Extra)),
        (32, b'K', [16_384, 7, 0], Err(ImageError::Short)),
        (32, b'K', [16_385, 7, 0], Err(ImageError::BadHeader)),
        (131_104, b'K', [31, 7, 0], Err(ImageError::BadHeader)),
        (
            131_104,
            b'K',
            [4_294_967_328, 7, 0],
            Err(ImageError::BadHeader),
        ),
        (131_104, b'k', [32, 7, 0], Err(ImageError::BadHeader)),
        (131_104, b'K', [32, 7, 1], Err(ImageError::BadHeader)),
        (31, b'K', [32, 7, 0], Err(ImageError::BadHeader)),
        (0, b'K', [32, 7, 0], Err(ImageError::BadHeader)),
    ] {
        let bytes = bytes_of(rt.alloc(), len, first, numbers)?;
        assert_eq!(rt; entry_in(rt.alloc(), &bytes), want, "at {len} bytes");
        assert_eq!(rt;
            loaded_in(rt.alloc(), &bytes),
            want,
            "of a source of {len} bytes"
        );
    }
    Ok(())
}

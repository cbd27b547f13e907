//! What no clause says: that the call succeeds with ample memory; and the answers for a machine of 32 frames.

ghost use Rattle.std.specs.Prelude.{◌≤◌, All};
ghost use Rattle.ho_base.specs.declared.limits.TheConstants.{MAX_ORDER};

use ho_base::numbers::Pfn;
use ho_base::shape::{Area, Shape};
use kho_records::{ChunkSheet, ElementRead, UsedRun, first_ill_frame};
use std::alloc::{AllocError, Global};
use std::test::Fail;

/// The shape of 32 frames with the scratch area 1 to 8.
fn shape_of_32(alloc: Global) -> Result<Shape, Fail> {
    let areas = [Area {
        first: Pfn(1),
        count: 8,
    }];
    let areas = Vec::from_slice(alloc, areas.as_slice())?;
    match Shape::checked(32, areas) {
        Ok(shape) => Ok(shape),
        Err(_) => Err("refused".into()),
    }
}

/// A bitmap whose byte 0 or 1 isn't zero.
fn bits_of(alloc: Global, low: u8, high: u8) -> Result<Vec<u8>, AllocError> {
    let mut bits = vec![in alloc; 0u8; 512]?;
    bits[0] = low;
    bits[1] = high;
    Ok(bits)
}

/// Chunk frame 11: of frames 8 to 15 those are marked whose bits `single` has, and the pairs from frame 0 to 15 whose bits
/// `pairs` has.
fn chain_of(alloc: Global, single: u8, pairs: u8) -> Result<Vec<ChunkSheet>, AllocError> {
    let mut items = Vec::new(alloc);
    items.push(ElementRead {
        base: 0,
        order: 0,
        bits: bits_of(alloc, 0, single)?,
    })?;
    items.push(ElementRead {
        base: 0,
        order: 1,
        bits: bits_of(alloc, pairs, 0)?,
    })?;
    let mut chunks = Vec::new(alloc);
    chunks.push(ChunkSheet { at: 11, items })?;
    Ok(chunks)
}

/// The least frame that breaks the rule.
fn told(alloc: Global, users: &[UsedRun], single: u8, pairs: u8) -> Result<Option<Pfn>, Fail>
    requires { All (λ u. u.order ≤ MAX_ORDER) users.now }
{
    let shape = shape_of_32(alloc)?;
    let chunks = chain_of(alloc, single, pairs)?;
    Ok(first_ill_frame(alloc, 32, &shape, users, chunks.as_slice())?)
}

/// A run of one frame, or of two.
fn run(first: u32, is_pair: bool) -> UsedRun
    ensures { result.order ≤ MAX_ORDER }
{
    UsedRun {
        first: Pfn(first),
        order: if is_pair { 1 } else { 0 },
    }
}

#[test]
fn the_least_frame_is_told(rt: HostRuntime) -> Result<(), Fail> {
    let alloc = rt.alloc();
    let one = run(10, false);
    let pair = run(12, true);
    assert_eq!(rt; told(alloc, [one, pair].as_slice(), 4, 64)?, None);
    assert_eq!(rt; told(alloc, [one].as_slice(), 4, 64)?, Some(Pfn(12)));
    assert_eq!(rt;
        told(alloc, [one, pair, pair].as_slice(), 4, 64)?,
        Some(Pfn(12))
    );
    assert_eq!(rt;
        told(alloc, [one, pair, run(8, false)].as_slice(), 5, 64)?,
        Some(Pfn(8))
    );
    assert_eq!(rt;
        told(alloc, [one, pair, run(0, false)].as_slice(), 4, 64)?,
        Some(Pfn(0))
    );
    assert_eq!(rt; told(alloc, [one, pair].as_slice(), 12, 64)?, Some(Pfn(11)));
    assert_eq!(rt; told(alloc, [one, pair].as_slice(), 52, 0)?, Some(Pfn(12)));
    Ok(())
}

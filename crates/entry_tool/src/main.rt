//! Writes the entry frames of worked handover trees into frames that held other bytes, and prints their blobs: how many
//! bytes each has, how many bytes behind it aren't zero, and its bytes in hexadecimal.
#![tactic(auto)]

ghost use Rattle.std.specs.Prelude.{◌≤◌};
ghost use Rattle.ho_base.specs.declared.limits.TheConstants.{MAX_FRAMES, MIN_FRAMES};

use ho_base::numbers::{Order, Pfn};
use ho_base::shape::{Area, Shape};
use kho_writer::write_entry;
use phys_frames::Frames;
use std::alloc::{AllocError, Global};
use std::io;

/// What the tree of an entry frame says.
#[derive(Drop)]
struct Told {
    number: u32,
    chunk: Pfn,
    header: Pfn,
    bounds: [Option<Pfn>; 4],
}

/// Gives the memory of frames back.
fn let_go(frames: Frames) {
    if frames.all_home() {
        frames.end();
    } else {
        frames.forget();
    }
}

/// The bytes of an entry frame that was all ones before.
fn entry_page(alloc: Global, count: u32, shape: &Shape, told: &Told) -> Result<Vec<u8>, AllocError>
    requires at_least { MIN_FRAMES ≤ count }
    requires at_most { count ≤ MAX_FRAMES }
{
    let Ok(mut frames) = Frames::zeroed(alloc, count) else {
        return Err(AllocError);
    };
    let mut folio = frames.take(Pfn(9), Order(0));
    folio.bytes_mut().fill(0xff);
    write_entry(
        &mut folio,
        shape,
        told.number,
        told.chunk,
        told.header,
        &told.bounds,
    );
    let page = Vec::from_slice(alloc, folio.bytes());
    frames.give(folio);
    let_go(frames);
    page
}

/// The total size that a blob's header says; 0 where there is none.
fn total_size(page: &[u8]) -> usize {
    match page {
        [_, _, _, _, a, b, c, d, ..] => u32::from_be_bytes([*a, *b, *c, *d]) as usize,
        _ => 0,
    }
}

/// Prints the blob of an entry frame of a machine with so many frames and these scratch areas.
fn show<R: Print + AllocGlobal>(rt: &R, count: u32, areas: &[Area], told: &Told) -> io::Result<()>
    requires at_least { MIN_FRAMES ≤ count }
    requires at_most { count ≤ MAX_FRAMES }
{
    let alloc = rt.alloc();
    let Ok(shape) = Shape::checked(count, Vec::from_slice(alloc, areas)?) else {
        return println!(rt; "no shape");
    };
    let page = entry_page(alloc, count, &shape, told)?;
    let (blob, behind) = page.as_slice().split_at(total_size(&page).min(page.len()));
    let left = behind.iter().filter(|byte| **byte != 0).count();
    let size = blob.len();
    let text = hex::encode(alloc, blob)?;
    println!(rt; "{size} bytes, {left} behind them aren't zero: {text}")
}

fn main(rt: HostRuntime) -> io::Result<()> {
    let area = |first, count| Area {
        first: Pfn(first),
        count,
    };
    let without_bounds = Told {
        number: 1,
        chunk: Pfn(13),
        header: Pfn(10),
        bounds: [None; 4],
    };
    show(&rt, 64, [area(1, 8)].as_slice(), &without_bounds)?;
    let with_bounds = Told {
        number: u32::MAX,
        chunk: Pfn(13),
        header: Pfn(10),
        bounds: [None, Some(Pfn(70)), None, Some(Pfn(71))],
    };
    show(&rt, 128, [area(1, 8), area(60, 4)].as_slice(), &with_bounds)
}

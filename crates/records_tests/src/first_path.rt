//! The frames that a kexec leaves where a session `s` has one file of five bytes, byte by byte as the formats say.

ghost use Rattle.std.specs.Prelude.{◌≡◌, IfOk, length};
ghost use Rattle.phys_frames.specs.Memory.{AllHome};

use ho_base::numbers::{NoMemory, Pfn};
use phys_frames::Frames;
use std::alloc::Global;

/// How many frames the machine has.
pub const FRAMES: u32 = 64;

/// The frame of the file's bytes.
pub const FILE: u32 = 9;

/// The entry frame.
pub const ENTRY: u32 = 10;

/// The session frame.
pub const SESSIONS: u32 = 11;

/// The file frame.
pub const FILES: u32 = 12;

/// The list frame.
pub const LIST: u32 = 13;

/// The chunk frames.
pub const CHUNKS: [u32; 2] = [14, 15];

/// Bytes of a frame from a place on.
pub type Part = (u32, usize, &'static [u8]);

/// The blob: its header, its structure block with a token or a property a line, and its strings block.
const BLOB: [Part; 13] = [
    (
        ENTRY,
        0,
        b"\xd0\x0d\xfe\xed\0\0\x01\x1d\0\0\0\x38\0\0\0\xd4\0\0\0\x28\0\0\0\x11\0\0\0\x10\0\0\0\0\0\0\0\x49\0\0\0\x9c",
    ),
    (ENTRY, 56, b"\0\0\0\x01\0\0\0\0"),
    (ENTRY, 64, b"\0\0\0\x03\0\0\0\x07\0\0\0\0kho-v1\0\0"),
    (
        ENTRY,
        84,
        b"\0\0\0\x03\0\0\0\x08\0\0\0\x0b\0\0\0\0\0\0\0\x0e",
    ),
    (
        ENTRY,
        104,
        b"\0\0\0\x03\0\0\0\x10\0\0\0\x20\0\0\0\0\0\0\0\x01\0\0\0\0\0\0\0\x08",
    ),
    (ENTRY, 132, b"\0\0\0\x01luo\0"),
    (ENTRY, 140, b"\0\0\0\x03\0\0\0\x07\0\0\0\0luo-v1\0\0"),
    (
        ENTRY,
        160,
        b"\0\0\0\x03\0\0\0\x08\0\0\0\x28\0\0\0\0\0\0\0\x01",
    ),
    (
        ENTRY,
        180,
        b"\0\0\0\x03\0\0\0\x08\0\0\0\x3a\0\0\0\0\0\0\0\x0b",
    ),
    (ENTRY, 200, b"\0\0\0\x02\0\0\0\x02\0\0\0\x09"),
    (ENTRY, 212, b"compatible\0preserved-memory-map\0"),
    (ENTRY, 244, b"scratch\0liveupdate-number\0"),
    (ENTRY, 270, b"session-header\0"),
];

/// The file's bytes, and the record frames: how many slots or numbers there are, and what they say.
const RECORDS: [Part; 13] = [
    (FILE, 0, b"hello"),
    (SESSIONS, 8, b"\x01"),
    (SESSIONS, 128, b"s"),
    (SESSIONS, 192, b"\x01"),
    (SESSIONS, 200, b"\x0c"),
    (FILES, 8, b"\x01"),
    (FILES, 128, b"\x07"),
    (FILES, 152, b"\x05"),
    (FILES, 176, b"\x0d"),
    (FILES, 184, b"\x01"),
    (LIST, 8, b"\x01"),
    (LIST, 16, b"\x09"),
    // frames 9 to 13 are marked at order 0
    (CHUNKS[0], 49, b"\x3e"),
];

/// The heads of the chunk frames.
const HEADS: [Part; 3] = [
    (CHUNKS[0], 0, b"\x0f"),
    (CHUNKS[0], 8, b"\x07"),
    (CHUNKS[1], 8, b"\x03"),
];

/// Puts bytes into a frame. Bytes that don't fit, or a frame that isn't there, change nothing.
pub fn put(frames: &mut Frames, part: Part)
    requires { AllHome frames.old }
    ensures home { AllHome frames.new }
    ensures count { length frames.new.pages ≡ length frames.old.pages }
{
    let (p, at, bytes) = part;
    if p < frames.count() && at < 2048 && bytes.len() < 2048 {
        let page = frames.page_mut(Pfn(p));
        page[at..at + bytes.len()].copy_from_slice(bytes);
    }
}

/// Puts several parts, in order.
pub fn put_all(frames: &mut Frames, parts: &[Part])
    requires { AllHome frames.old }
    ensures home { AllHome frames.new }
    ensures count { length frames.new.pages ≡ length frames.old.pages }
{
    for i in 0..parts.len() {
        put(frames, parts[i]);
    }
}

/// Puts the order of each of the ten bitmaps, seven in the first chunk frame and three in the second.
fn put_orders(frames: &mut Frames)
    requires { AllHome frames.old }
    ensures home { AllHome frames.new }
    ensures count { length frames.new.pages ≡ length frames.old.pages }
{
    for order in 0..10u8 {
        let (chunk, k) = if order < 7 {
            (CHUNKS[0], order)
        } else {
            (CHUNKS[1], order - 7)
        };
        if chunk < frames.count() {
            let page = frames.page_mut(Pfn(chunk));
            page[40 + 528 * k as usize] = order;
        }
    }
}

/// The frames. `Err`: out of memory.
pub fn first_path(alloc: Global) -> Result<Frames, NoMemory>
    ensures { IfOk result (λ f. AllHome f) }
{
    let mut frames = Frames::zeroed(alloc, FRAMES)?;
    put_all(&mut frames, &BLOB);
    put_all(&mut frames, &RECORDS);
    put_all(&mut frames, &HEADS);
    put_orders(&mut frames);
    Ok(frames)
}

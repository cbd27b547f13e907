//! Slots of session and file frames, written.

ghost use Rattle.std.specs.Prelude.{◌≡◌, ◌+◌, ◌≤◌, length};
ghost use Rattle.ho_base.specs.declared.limits.TheConstants.{PAGE_BYTES};
ghost use Rattle.phys_frames.specs.Memory.{with_bytes, written};
ghost use Rattle.record_frames.specs.Sheets.{file_slot_bytes, kind_number as number_of_kind, session_slot_bytes};
ghost use Rattle.record_frames.specs.Writing.{file_slot_of, session_slot_of};

use crate::carried::{CarriedFile, CarriedSession};
use crate::writing::frame::{put_numbers, put_zeros};
use ho_base::numbers::Kind;
use phys_frames::Folio;

/// Where the slots of a frame begin.
pub(crate) const SLOTS_AT: usize = 128;

/// How many bytes a slot has.
pub(crate) const SLOT_BYTES: usize = 128;

/// The number of a kind in a slot.
fn kind_number(kind: Kind) -> u64
    ensures { result ≡ number_of_kind kind }
{
    match kind {
        Kind::Memfd => 0,
        Kind::Dev0 => 1,
        Kind::Dev1 => 2,
        Kind::Dev2 => 3,
        Kind::Dev3 => 4,
    }
}

/// Writes the slot of a file from `at` on; `first` is the number of its first list frame, or 0.
pub(crate) fn put_file_slot(folio: &mut Folio, at: usize, file: &CarriedFile, first: u64)
    requires size { length folio.old.bytes ≡ PAGE_BYTES }
    requires room { at + 128 ≤ PAGE_BYTES }
    ensures { folio.new ≡ with_bytes folio.old (written folio.old.bytes at (file_slot_bytes (file_slot_of file.now first))) }
{
    let numbers = [
        file.token.0,
        kind_number(file.kind),
        u64::from(file.order.0),
        u64::from(file.size),
        u64::from(file.position),
        file.handle,
        first,
        file.runs.len() as u64,
    ];
    put_numbers(folio, at, &numbers);
    put_zeros(folio, at + 64, 64);
}

/// Writes the slot of a session from `at` on; `first` is the number of its file frame, or 0.
pub(crate) fn put_session_slot(folio: &mut Folio, at: usize, session: &CarriedSession, first: u64)
    requires size { length folio.old.bytes ≡ PAGE_BYTES }
    requires room { at + 128 ≤ PAGE_BYTES }
    ensures len { length (session_slot_bytes (session_slot_of session.now first)) ≡ 128 }
    ensures slot { folio.new ≡ with_bytes folio.old (written folio.old.bytes at (session_slot_bytes (session_slot_of session.now first))) }
{
    let name = session.name.as_bytes();
    let len = name.len();
    folio.write(at, name);
    put_zeros(folio, at + len, 64 - len);
    put_numbers(folio, at + 64, &[session.files.len() as u64, first]);
    put_zeros(folio, at + 80, 48);
}

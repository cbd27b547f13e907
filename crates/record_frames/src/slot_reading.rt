//! Slots of session and file frames, read from any bytes.

ghost use Rattle.std.specs.Prelude.{◌≡◌, ◌*◌, ◌^◌, ◌==◌, ◌≤◌, IfSome, IsTrue, length, take};
ghost use Rattle.ho_events.specs.Lists.{pieces};
ghost use Rattle.record_frames.specs.Rules.{has_first as first_rule, is_of_kind as kind_rule, is_file_slot as file_rule};
ghost use Rattle.record_frames.specs.Reading.{are_zero as all_zero, kind_of, text_of};
ghost use Rattle.record_frames.specs.Slots.{Gives, name_in, session_view, session_kept, file_view, file_kept};

use ho_base::bytes::get_u64;
use ho_base::limits::{DEVICE_BYTES, FILE_BYTES, MAX_ORDER, PAGE_BYTES, SESSION_FILES};
use ho_base::name::Name;
use ho_base::numbers::Kind;

/// How many bytes a slot has.
pub(crate) const SLOT_BYTES: usize = 128;

/// What a slot of a session frame says.
#[derive(Debug, Drop)]
pub struct ReadSession {
    /// The session's name.
    pub name: Name,
    /// How many files it has.
    pub files: u64,
    /// The number of its file frame, or 0 where it has no files.
    pub first: u64,
}

/// What a slot of a file frame says.
#[derive(Clone, Copy, Debug)]
pub struct ReadFile {
    /// The file's token.
    pub token: u64,
    /// Which sort of file it is.
    pub kind: Kind,
    /// The order of its runs.
    pub order: u64,
    /// Its size in bytes.
    pub size: u64,
    /// Its position in bytes.
    pub position: u64,
    /// Its handle; 0 for a memfd.
    pub handle: u64,
    /// The number of its first list frame, or 0 where it has no runs.
    pub first: u64,
    /// How many runs it has.
    pub folios: u64,
}

/// Whether all bytes are zero.
pub(crate) fn are_zero(bytes: &[u8]) -> bool
    ensures { result ≡ all_zero bytes.now }
{
    bytes.iter().all(|b| 0 == *b)
}

/// Whether there is a first frame exactly where something is counted.
fn has_first(count: u64, first: u64) -> bool
    ensures { result ≡ first_rule count first }
{
    (count == 0 && first == 0) || (0 < count && 0 < first)
}

/// How many bytes stand before the first zero.
fn text_len(bytes: &[u8]) -> usize
    ensures within { result ≤ length bytes.now }
    ensures text { take result bytes.now ≡ text_of bytes.now }
{
    let mut len = 0;
    for b in bytes {
        if *b == 0 {
            return len;
        }
        len += 1;
    }
    len
}

/// The name in these bytes, with zeros behind it.
#[tactic(auto, unfolding(crate::specs::Slots::name_in))]
fn name_at(bytes: &[u8]) -> Option<Name>
    ensures { result ≡ name_in bytes.now }
{
    let len = text_len(bytes);
    if !are_zero(&bytes[len..]) {
        return None;
    }
    Name::checked(&bytes[..len])
}

/// Reads a slot of a session frame, of 128 bytes.
///
/// None exactly where it breaks a rule by itself: the name's bytes aren't a name with zeros behind it, bytes without a
/// meaning aren't zero, it has more files than a session may have, or it has a first file frame without files or files
/// without one.
pub fn session_slot(bytes: &[u8]) -> Option<ReadSession>
    requires { length bytes.now ≡ 128 }
    ensures { Gives session_view result (session_kept bytes.now) }
{
    let Some(name) = name_at(&bytes[..64]) else {
        return None;
    };
    if !are_zero(&bytes[80..]) {
        return None;
    }
    let files = get_u64(bytes, 64);
    let first = get_u64(bytes, 72);
    if files > u64::from(SESSION_FILES) || !has_first(files, first) {
        return None;
    }
    Some(ReadSession { name, files, first })
}

/// The kind with this number; none exactly where there is none.
fn kind_at(number: u64) -> Option<Kind>
    ensures { result ≡ kind_of number }
{
    match number {
        0 => Some(Kind::Memfd),
        1 => Some(Kind::Dev0),
        2 => Some(Kind::Dev1),
        3 => Some(Kind::Dev2),
        4 => Some(Kind::Dev3),
        _ => None,
    }
}

/// Whether order, size and handle are as the kind wants them.
fn is_of_kind(file: &ReadFile) -> bool
    ensures { result ≡ kind_rule (file_view file.now) file.now.kind }
{
    match file.kind {
        Kind::Memfd => file.handle == 0,
        Kind::Dev0 | Kind::Dev1 | Kind::Dev2 | Kind::Dev3 => {
            file.order == 0 && 0 < file.size && file.size <= u64::from(DEVICE_BYTES)
        }
    }
}

/// Whether a file has as many runs as hold its size.
fn has_runs(file: &ReadFile) -> bool
    requires order { file.now.order ≤ MAX_ORDER }
    requires size { file.now.size ≤ FILE_BYTES }
    ensures { result ≡ (file.now.folios == pieces file.now.size (PAGE_BYTES * 2 ^ file.now.order)) }
{
    let run = u64::from(PAGE_BYTES) << file.order;
    file.folios == (file.size + (run - 1)) / run
}

/// Whether a file's slot keeps the rules that it keeps by itself.
fn is_kept(file: &ReadFile) -> bool
    ensures exact { result ≡ file_rule (file_view file.now) }
    ensures order { IsTrue result → file.now.order ≤ MAX_ORDER }
{
    file.order <= u64::from(MAX_ORDER)
        && file.size <= u64::from(FILE_BYTES)
        && file.position <= file.size
        && has_runs(file)
        && is_of_kind(file)
        && has_first(file.folios, file.first)
}

/// Reads a slot of a file frame, of 128 bytes.
///
/// None exactly where it breaks a rule by itself: its kind has no such number, bytes without a meaning aren't zero,
/// order, size or position is out of range, its runs aren't as many as hold its size, order, size and handle aren't as
/// its kind wants them, or it has a first list frame without runs or runs without one.
#[tactic(auto, unfolding(crate::specs::Slots::file_kept, crate::specs::Reading::file_slot_at))]
pub fn file_slot(bytes: &[u8]) -> Option<ReadFile>
    requires { length bytes.now ≡ 128 }
    ensures slot { Gives file_view result (file_kept bytes.now) }
    ensures order { IfSome result (λ f. f.order ≤ MAX_ORDER) }
{
    let Some(kind) = kind_at(get_u64(bytes, 8)) else {
        return None;
    };
    if !are_zero(&bytes[64..]) {
        return None;
    }
    let file = ReadFile {
        token: get_u64(bytes, 0),
        kind,
        order: get_u64(bytes, 16),
        size: get_u64(bytes, 24),
        position: get_u64(bytes, 32),
        handle: get_u64(bytes, 40),
        first: get_u64(bytes, 48),
        folios: get_u64(bytes, 56),
    };
    if is_kept(&file) { Some(file) } else { None }
}

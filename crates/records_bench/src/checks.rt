//! Tests at run time that a state can be written into folios.

ghost use Rattle.std.specs.Prelude.{◌≡◌, ◌*◌, ◌^◌, ◌==◌, ◌≤◌, ◌&&◌, IsTrue, [], length, nat_le, nat_lt};
ghost use Rattle.std.specs.List.{list_all};
ghost use Rattle.ho_base.specs.declared.limits.TheConstants.{FILES, FILE_BYTES, MAX_ORDER, PAGE_BYTES};
ghost use Rattle.ho_events.specs.Lists.{pieces};
ghost use Rattle.ho_world.specs.Frozen.{MOST_UPDATES};
ghost use Rattle.record_frames.specs.Rules.{all_rise, bytes_before, fits as fits_rule, is_run as run_rule};
ghost use Rattle.record_frames.specs.Writing.{files_in};
ghost use Rattle.kho_laws.specs.Carrying.{can_be_carried};
ghost use Rattle.kho_laws.specs.Sessions.{is_carried_file as file_rule, is_carried_session as session_rule, are_carried as sessions_rule};
ghost use Rattle.records_bench.specs.FileTests.{has_limits as limits_rule, is_memfd as memfd_rule};

use ho_base::limits::{
    FILE_BYTES, FILES, MAX_FRAMES, MAX_ORDER, OUT_SLOTS, PAGE_BYTES, SESSION_FILES,
};
use ho_base::numbers::{Kind, Order, Pfn};
use record_frames::{Carried, CarriedBound, CarriedFile, CarriedSession};

/// Whether this is the first frame of a run of so many frames.
fn is_run(frames: u32, order: Order, first: Pfn) -> bool
    requires { order.0 ≤ MAX_ORDER }
    ensures { result ≡ run_rule frames order.0 first.0 }
{
    let run = 1u64 << order.0;
    let first = u64::from(first.0);
    0 < first && first % run == 0 && first + run <= u64::from(frames)
}

/// Whether these are the first frames of runs of so many frames.
fn are_runs(frames: u32, order: Order, runs: &[Pfn]) -> bool
    requires { order.0 ≤ MAX_ORDER }
    ensures { result ≡ list_all (λ p. run_rule frames order.0 p.0) runs.now }
{
    runs.iter().all(|run| is_run(frames, order, *run))
}

/// Whether a file has as many runs as hold its size.
fn has_runs(file: &CarriedFile) -> bool
    requires order { file.now.order.0 ≤ MAX_ORDER }
    requires size { file.now.size ≤ FILE_BYTES }
    ensures { result ≡ (length file.now.runs == pieces file.now.size (PAGE_BYTES * 2 ^ file.now.order.0)) }
{
    let run = u64::from(PAGE_BYTES) << file.order.0;
    file.runs.len() as u64 == (u64::from(file.size) + (run - 1)) / run
}

/// Whether order, size and position of a file are within the limits.
fn has_limits(file: &CarriedFile) -> bool
    ensures { result ≡ limits_rule file.now }
{
    file.order.0 <= MAX_ORDER && file.size <= FILE_BYTES && file.position <= file.size
}

/// Whether a file is a memfd, which has the handle 0.
fn is_memfd(file: &CarriedFile) -> bool
    ensures kind { IsTrue result → IsTrue (memfd_rule file.now) }
    ensures handle { IsTrue result → file.now.handle ≡ 0 }
{
    file.handle == 0 && matches!(file.kind, Kind::Memfd)
}

/// A number of 64 bits has 8 bytes. Nothing is done.
fn fits(number: u64)
    ensures { IsTrue (fits_rule number) }
{}

/// Whether a file is a memfd that can be carried on so many frames.
fn is_carried_file(frames: u32, file: &CarriedFile) -> bool
    ensures can { IsTrue result → IsTrue (file_rule frames file.now) }
    ensures memfd { IsTrue result → IsTrue (memfd_rule file.now) }
{
    fits(file.token.0);
    if !has_limits(file) {
        return false;
    }
    if !has_runs(file) {
        return false;
    }
    if !is_memfd(file) {
        return false;
    }
    if file.runs.len() > MAX_FRAMES as usize {
        return false;
    }
    are_runs(frames, file.order, file.runs.as_slice())
}

/// Whether files are memfds that can be carried on so many frames.
fn are_carried_files(frames: u32, files: &[CarriedFile]) -> bool
    ensures can { IsTrue result → IsTrue (list_all (file_rule frames) files.now) }
    ensures memfds { IsTrue result → IsTrue (list_all memfd_rule files.now) }
{
    for file in files {
        if !is_carried_file(frames, file) {
            return false;
        }
    }
    true
}

/// Whether the tokens of files rise.
fn tokens_rise(files: &[CarriedFile]) -> bool
    ensures { result ≡ all_rise (λ a b. nat_lt a.token.0 b.token.0) files.now }
{
    match files {
        [first, rest @ ..] => match rest.first() {
            Some(second) => first.token.0 < second.token.0 && tokens_rise(rest),
            None => true,
        },
        [] => true,
    }
}

/// Whether a session has memfds alone, and can be carried on so many frames.
fn is_carried_session(frames: u32, session: &CarriedSession) -> bool
    ensures can { IsTrue result → IsTrue (session_rule frames session.now) }
    ensures memfds { IsTrue result → IsTrue (list_all memfd_rule session.now.files) }
{
    let _name = session.name.as_bytes();
    let files = session.files.as_slice();
    files.len() <= SESSION_FILES as usize && tokens_rise(files) && are_carried_files(frames, files)
}

/// Whether one name stands before another in the order of bytes.
fn is_before(one: &[u8], other: &[u8]) -> bool
    ensures { result ≡ bytes_before one.now other.now }
{
    match other.split_first() {
        None => false,
        Some((b, others)) => match one.split_first() {
            None => true,
            Some((a, ones)) => *a < *b || (*a == *b && is_before(ones, others)),
        },
    }
}

/// Whether the names of sessions rise.
fn names_rise(sessions: &[CarriedSession]) -> bool
    ensures { result ≡ all_rise (λ a b. bytes_before a.name b.name) sessions.now }
{
    match sessions {
        [first, rest @ ..] => match rest.first() {
            Some(second) => is_before(first.name.as_bytes(), second.name.as_bytes())
                && names_rise(rest),
            None => true,
        },
        [] => true,
    }
}

/// Whether there are few enough files in all.
fn are_few(sessions: &[CarriedSession]) -> bool
    ensures { IsTrue result → IsTrue (nat_le (length (files_in sessions.now)) FILES) }
{
    let mut left = FILES as usize;
    for session in sessions {
        let files = session.files.len();
        if left < files {
            return false;
        }
        left -= files;
    }
    true
}

/// Whether sessions have memfds alone, and each of them can be carried on so many frames.
fn are_carried_sessions(frames: u32, sessions: &[CarriedSession]) -> bool
    ensures can { IsTrue result → IsTrue (list_all (session_rule frames) sessions.now) }
    ensures memfds { IsTrue result → IsTrue (list_all (λ s. list_all memfd_rule s.files) sessions.now) }
{
    for session in sessions {
        if !is_carried_session(frames, session) {
            return false;
        }
    }
    true
}

/// Whether sessions have memfds alone, and can be carried together on so many frames.
fn are_carried(frames: u32, sessions: &[CarriedSession]) -> bool
    ensures can { IsTrue result → IsTrue (sessions_rule frames sessions.now) }
    ensures memfds { IsTrue result → IsTrue (list_all (λ s. list_all memfd_rule s.files) sessions.now) }
{
    sessions.len() <= OUT_SLOTS as usize
        && are_few(sessions)
        && names_rise(sessions)
        && are_carried_sessions(frames, sessions)
}

/// Whether this is an update number that may be handed on.
fn may_be_handed_on(number: u32) -> bool
    ensures { result ≡ (nat_le 1 number && nat_le number MOST_UPDATES) }
{
    1 <= number
}

/// Whether there are no bound records.
fn are_none(bounds: &[CarriedBound]) -> bool
    ensures { IsTrue result → bounds.now ≡ [] }
{
    bounds.is_empty()
}

/// Whether a state has memfds alone and no bound records, and can be carried.
pub(crate) fn can_carry(carried: &Carried) -> bool
    ensures can { IsTrue result → IsTrue (can_be_carried carried.now) }
    ensures bounds { IsTrue result → carried.now.bounds ≡ [] }
{
    let _legal = carried.shape.scratch();
    if !may_be_handed_on(carried.number) {
        return false;
    }
    if !are_none(carried.bounds.as_slice()) {
        return false;
    }
    are_carried(carried.shape.frames(), carried.sessions.as_slice())
}

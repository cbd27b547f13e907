//! What a kexec carries from one kernel to the next, and how many frames the records of it take.

ghost use Rattle.std.specs.Prelude.{◌≡◌, ◌≤◌, length};
ghost use Rattle.std.specs.List.{All};
ghost use Rattle.ho_world.specs.Frozen.{need as frames_needed};
ghost use Rattle.ho_base.specs.BitmapCount.{chunk_frames as chunks_of};
ghost use Rattle.record_frames.specs.Ram.{Ram};
ghost use Rattle.record_frames.specs.State.{state_in, list_frames as listed_in, session_frames as frames_of};

use folio_bitmaps::chunk_count;
use ho_base::Items;
use ho_base::bound::Bound;
use ho_base::limits::{MAX_FRAMES, OUT_SLOTS, SESSION_FILES};
use ho_base::name::Name;
use ho_base::numbers::{Kind, Order, Pfn, Token};
use ho_base::shape::Shape;

/// How many numbers a list frame has room for.
const LISTED: u32 = 510;

/// A file that is carried. Its bytes stay in its runs.
#[derive(Debug, Drop)]
pub struct CarriedFile {
    /// The token under which its session has it.
    pub token: Token,
    /// Its kind.
    pub kind: Kind,
    /// The order of its runs.
    pub order: Order,
    /// How many bytes it has; those behind them in the last run don't count.
    pub size: u32,
    /// Its position, at most its size.
    pub position: u32,
    /// The handle that its handler gave; 0 for a memfd.
    pub handle: u64,
    /// The first frames of its runs, in order of its bytes.
    pub runs: Items<Pfn>,
}

/// A session that is carried.
#[derive(Debug, Drop)]
pub struct CarriedSession {
    /// Its name.
    pub name: Name,
    /// Its files, in rising tokens.
    pub files: Items<CarriedFile>,
}

/// The bound record of the files of a kind.
#[derive(Debug, Drop)]
pub struct CarriedBound {
    /// A kind of device files.
    pub kind: Kind,
    /// The frame that holds it.
    pub frame: Pfn,
    /// Its bytes.
    pub bound: Bound,
}

/// What a kexec carries.
#[derive(Debug, Drop)]
pub struct Carried {
    /// The machine's shape.
    pub shape: Shape,
    /// The next kernel's update number, from 1 on.
    pub number: u32,
    /// The sessions, in rising names.
    pub sessions: Items<CarriedSession>,
    /// A bound record for each kind that has a file, in order of kinds.
    pub bounds: Items<CarriedBound>,
    /// The frames of the records themselves, if there are some: the entry frame, the session, file and list frames in
    /// reading order, and the chunk frames.
    pub working: Items<Pfn>,
}

/// How many frames the records of this take: the entry frame, the session frame, a file frame for each session that has
/// files, for each file its list frames with 510 runs each, and the chunk frames of the machine.
///
/// The limits on sessions and their files are those of every kernel; a file has no more runs than a machine has frames.
pub fn need(carried: &Carried) -> u32
    requires sessions { length carried.now.sessions ≤ OUT_SLOTS }
    requires files { All (λ s. length s.files ≤ SESSION_FILES) carried.now.sessions }
    requires runs { All (λ s. All (λ f. length f.runs ≤ MAX_FRAMES) s.files) carried.now.sessions }
    ensures { (ram : Ram) → result ≡ frames_needed (state_in ram carried.now) }
{
    let mut count = 2;
    for session in carried.sessions.as_slice() {
        count += session_frames(session);
    }
    count + chunk_frames(&carried.shape)
}

/// The chunk frames of a machine. They are few, since its shape is legal.
#[tactic(auto, using(crate::proofs::Needs::few_chunks))]
fn chunk_frames(shape: &Shape) -> u32
    ensures value { result ≡ chunks_of shape.now.frames }
    ensures few { result ≤ 6 }
{
    let _legal = shape.scratch();
    chunk_count(shape.frames())
}

/// The frames of a session beside its slot: a file frame where it has files, and its files' list frames.
fn session_frames(session: &CarriedSession) -> u32
    requires files { length session.now.files ≤ SESSION_FILES }
    requires runs { All (λ f. length f.runs ≤ MAX_FRAMES) session.now.files }
    ensures value { result ≡ frames_of session.now }
    ensures few { result ≤ 1024 }
{
    let files = session.files.as_slice();
    let mut count = u32::from(!files.is_empty());
    for file in files {
        count += list_frames(file);
    }
    count
}

/// The list frames of a file.
pub(crate) fn list_frames(file: &CarriedFile) -> u32
    requires { length file.now.runs ≤ MAX_FRAMES }
    ensures value { result ≡ listed_in file.now }
    ensures few { result ≤ 33 }
{
    (file.runs.len() as u32).div_ceil(LISTED)
}

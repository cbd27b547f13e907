//! States to measure with: sessions of memfds, whose bytes stand in consecutive frames.

ghost use Rattle.std.specs.Prelude.{◌≡◌, ◌≤◌, IfOk, IfSome, [], length};
ghost use Rattle.ho_base.specs.declared.limits.TheConstants.{OUT_SLOTS};

use ho_base::Items;
use ho_base::limits::PAGE_BYTES;
use ho_base::name::Name;
use ho_base::numbers::{Kind, Order, Pfn, Token};
use ho_base::shape::{Area, Shape};
use record_frames::{Carried, CarriedFile, CarriedSession};
use std::alloc::{AllocError, Global};

/// The longest name of a session. Each session's name is a front of it, so names rise.
const NAME: [u8; 16] = [b's'; 16];

/// The token of a session's first file. Each other file has the next one.
const FIRST_TOKEN: u64 = 7;

/// What there is to carry.
#[derive(Clone, Copy)]
pub(crate) struct Amount {
    /// How many sessions there are.
    pub sessions: u32,
    /// How many files each session has.
    pub files: u32,
    /// How many bytes each file has.
    pub bytes: u32,
}

/// A state, and the frame behind its files' runs.
#[derive(Drop)]
pub(crate) struct StateAt {
    /// What is carried.
    pub carried: Carried,
    /// The frame behind the last run.
    pub next: u32,
}

/// A memfd of so many bytes, whose runs of one frame each are the frames from `first` on. The bytes are those of the
/// frames.
fn file(alloc: Global, token: Token, bytes: u32, first: u32) -> Result<CarriedFile, AllocError>
    ensures { IfOk result (λ f. (f.token ≡ token) × (f.size ≡ bytes)) }
{
    let mut runs = Vec::new(alloc);
    for i in 0..bytes.div_ceil(PAGE_BYTES) {
        runs.push(Pfn(first.saturating_add(i)))?;
    }
    Ok(CarriedFile {
        token,
        kind: Kind::Memfd,
        order: Order(0),
        size: bytes,
        position: 0,
        handle: 0,
        runs: Items::from_vec(runs),
    })
}

/// A session of so many files of so many bytes, whose runs are the frames from `first` on.
fn session(
    alloc: Global,
    name: Name,
    amount: Amount,
    first: u32,
) -> Result<CarriedSession, AllocError>
    ensures { IfOk result (λ s. (s.name ≡ name) × (length s.files ≡ amount.files)) }
{
    let pages = amount.bytes.div_ceil(PAGE_BYTES);
    let mut files = Vec::new(alloc);
    for i in 0..amount.files {
        let at = first.saturating_add(i.saturating_mul(pages));
        let token = Token(FIRST_TOKEN + u64::from(i));
        files.push(file(alloc, token, amount.bytes, at)?)?;
    }
    Ok(CarriedSession {
        name,
        files: Items::from_vec(files),
    })
}

/// The sessions, whose runs are the frames from `first` on. Their names are `s`, `ss` and so on.
fn sessions(
    alloc: Global,
    amount: Amount,
    first: u32,
) -> Result<Option<Vec<CarriedSession>>, AllocError>
    requires { amount.sessions ≤ OUT_SLOTS }
    ensures { IfOk result (λ r. IfSome r (λ ss. length ss.items ≡ amount.sessions)) }
{
    let mut sessions = Vec::new(alloc);
    for i in 0..amount.sessions {
        let Some(name) = Name::checked(&NAME[..i as usize + 1]) else {
            return Ok(None);
        };
        let at = first.saturating_add(i.saturating_mul(pages_of_session(amount)));
        sessions.push(session(alloc, name, amount, at)?)?;
    }
    Ok(Some(sessions))
}

/// How many pages the files of a session have.
fn pages_of_session(amount: Amount) -> u32 {
    amount
        .files
        .saturating_mul(amount.bytes.div_ceil(PAGE_BYTES))
}

/// The state of a machine of so many frames, with a scratch area of `scratch` frames from frame 1 on. The files' runs
/// are the frames behind it. There are no bound records.
///
/// `Ok(None)`: the frames and the scratch area are no machine's shape. `Err`: out of memory. Whether the state can be
/// carried, and its frames are there, isn't looked at.
pub(crate) fn make_state(
    alloc: Global,
    frames: u32,
    scratch: u32,
    amount: Amount,
) -> Result<Option<StateAt>, AllocError>
    requires { amount.sessions ≤ OUT_SLOTS }
    ensures machine { IfOk result (λ r. IfSome r (λ s. s.carried.shape.frames ≡ frames)) }
    ensures sessions { IfOk result (λ r. IfSome r (λ s. length s.carried.sessions ≡ amount.sessions)) }
    ensures bounds { IfOk result (λ r. IfSome r (λ s. s.carried.bounds ≡ [])) }
{
    let area = Area {
        first: Pfn(1),
        count: scratch,
    };
    let Ok(shape) = Shape::checked(frames, vec![in alloc; area; 1]?) else {
        return Ok(None);
    };
    let first = scratch.saturating_add(1);
    let Some(sessions) = sessions(alloc, amount, first)? else {
        return Ok(None);
    };
    let pages = amount.sessions.saturating_mul(pages_of_session(amount));
    Ok(Some(StateAt {
        carried: Carried {
            shape,
            number: 1,
            sessions: Items::from_vec(sessions),
            bounds: Items::new(alloc),
            working: Items::new(alloc),
        },
        next: first.saturating_add(pages),
    }))
}

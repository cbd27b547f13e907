//! Numbers with a name of their own.

ghost use Rattle.std.specs.Prelude.{◌≡◌, ◌<◌, ◌≤◌, option_map};
ghost use Rattle.std.specs.Option.{SomeIff};

use crate::limits::{FILES, IN_SLOTS, MAX_ORDER, OUT_SLOTS};

/// The number of a physical frame.
#[derive(Clone, Copy, Debug, PartialEq)]
pub struct Pfn(pub u32);

/// The order of a run of frames: a run of order `o` has `2^o` frames and begins at a multiple of `2^o`.
/// An order is at most [`MAX_ORDER`].
#[derive(Clone, Copy, Debug, PartialEq)]
pub struct Order(pub u8);

/// What a file is preserved under in its session.
#[derive(Clone, Copy, Debug, PartialEq)]
pub struct Token(pub u64);

/// The number of an agent. Number 0 is the orchestrator, which does the kexecs.
#[derive(Clone, Copy, Debug, PartialEq)]
pub struct AgentNo(pub u8);

/// The number of a file of one kernel, below [`FILES`](crate::limits::FILES).
#[derive(Clone, Copy, Debug, PartialEq)]
pub struct FileNo(pub u16);

/// The number of a session slot: first the outgoing slots, then the incoming ones.
#[derive(Clone, Copy, Debug, PartialEq)]
pub struct SlotNo(pub u8);

/// The number of an object: the pool is 0, the registry 1, the handlers 2 to 5, then the session slots,
/// then the files.
#[derive(Clone, Copy, Debug, PartialEq)]
pub struct ObjectNo(pub u16);

/// The program that a kernel is booted from, by its version and its size in frames.
#[derive(Clone, Copy, Debug, PartialEq)]
pub struct Blob {
    pub version: u64,
    /// At most [`MAX_FRAMES`](crate::limits::MAX_FRAMES).
    pub frames: u32,
}

/// The kind of a file: a memfd, or a device file of one of four handlers.
#[derive(Clone, Copy, Debug, PartialEq)]
pub enum Kind {
    Memfd,
    Dev0,
    Dev1,
    Dev2,
    Dev3,
}

/// Memory that was wanted could not be had.
#[derive(Clone, Copy, Debug, PartialEq)]
pub struct NoMemory;

/// Something of the outside, or a handler, failed.
#[derive(Clone, Copy, Debug, PartialEq)]
pub struct Failed;

/// A machine that has no legal shape.
#[derive(Clone, Copy, Debug, PartialEq)]
pub struct BadShape;

impl Order {
    /// The order with this number; none exactly above [`MAX_ORDER`].
    pub fn checked(o: u8) -> Option<Order>
        ensures { SomeIff result (o ≤ MAX_ORDER) (record { 0 = o }) }
    {
        if o <= MAX_ORDER { Some(Order(o)) } else { None }
    }
}

impl ObjectNo {
    ghost use Rattle.ho_base.specs.Objects.{session_no, file_no, handler_of};

    /// The number of the pool.
    pub const POOL: ObjectNo = ObjectNo(0);

    /// The number of the registry.
    pub const REGISTRY: ObjectNo = ObjectNo(1);

    /// The number of the handler of a kind; none exactly for a memfd, which has no handler.
    pub fn of_handler(kind: Kind) -> Option<ObjectNo>
        ensures { result ≡ option_map (λ n. record { 0 = n }) (handler_of kind) }
    {
        match kind {
            Kind::Memfd => None,
            Kind::Dev0 => Some(ObjectNo(2)),
            Kind::Dev1 => Some(ObjectNo(3)),
            Kind::Dev2 => Some(ObjectNo(4)),
            Kind::Dev3 => Some(ObjectNo(5)),
        }
    }

    /// The number of a session slot.
    pub fn of_session(slot: SlotNo) -> ObjectNo
        ensures { result.0 ≡ session_no slot.0 }
    {
        ObjectNo(6 + u16::from(slot.0))
    }

    /// The number of a file, whose own number is below [`FILES`].
    pub fn of_file(file: FileNo) -> ObjectNo
        requires { file.0 < FILES }
        ensures { result.0 ≡ file_no file.0 }
    {
        ObjectNo(6 + OUT_SLOTS as u16 + IN_SLOTS as u16 + file.0)
    }
}

//! The limits of the machine. Contracts and code cite them by name.

/// Bytes of one frame.
pub const PAGE_BYTES: u32 = 4096;

/// The fewest frames that a machine has.
pub const MIN_FRAMES: u32 = 32;

/// The most frames that a machine has (64 MiB).
pub const MAX_FRAMES: u32 = 16_384;

/// The most scratch areas.
pub const SCRATCH_AREAS: u32 = 4;

/// The greatest order of a run, which has `2^order` frames.
pub const MAX_ORDER: u8 = 9;

/// The most bytes of a name.
pub const NAME_BYTES: u32 = 63;

/// The most bytes of a handler's bound record.
pub const BOUND_BYTES: u32 = 64;

/// The most outgoing sessions; their slots are 0 to `OUT_SLOTS - 1`.
pub const OUT_SLOTS: u32 = 16;

/// The most incoming sessions; their slots follow those of the outgoing ones.
pub const IN_SLOTS: u32 = 16;

/// The most files at once in one kernel.
pub const FILES: u32 = 256;

/// The most files of one session.
pub const SESSION_FILES: u32 = 31;

/// The greatest size of a file in bytes.
pub const FILE_BYTES: u32 = 16_777_216;

/// The greatest size of a device file in bytes.
pub const DEVICE_BYTES: u32 = 4096;

/// The most bytes of a script.
pub const SCRIPT_BYTES: u32 = 1_048_576;

/// The most agents of a script.
pub const AGENTS: u32 = 15;

/// The most rounds of a script.
pub const ROUNDS: u32 = 64;

/// The most kexec lines of a script.
pub const KEXECS: u32 = 8;

/// The most commands of a script.
pub const COMMANDS: u32 = 4096;

/// The most `fail` lines of a script.
pub const FAILS: u32 = 256;

/// The most bytes of one literal write.
pub const WRITE_BYTES: u32 = 256;

/// The most bytes of one read.
pub const READ_BYTES: u32 = 4096;

/// The most bytes of a history that is audited.
pub const HISTORY_BYTES: u32 = 268_435_456;

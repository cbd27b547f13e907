//! Who uses a frame.

ghost use Rattle.std.specs.Prelude.{◌≡◌};
ghost use Rattle.kho_records.specs.Owner.{joined};

/// Who uses a frame.
#[derive(Clone, Copy)]
pub(crate) enum Owner {
    /// Nobody.
    Nobody,
    /// One run, which has to be marked: its first frame and its order.
    Run { first: u32, order: u8 },
    /// One scratch area or one chunk frame, which must not be marked.
    Unmarked,
    /// More than one of these.
    Several,
}

/// Who uses a frame that gets one user more.
pub(crate) fn join(now: Owner, more: Owner) -> Owner
    ensures { result ≡ joined now more }
{
    match now {
        Owner::Nobody => more,
        _ => Owner::Several,
    }
}

//! Laws of what is written.

ghost use Rattle.record_frames.specs.Written.{WrittenAreRead};

/// Frames that hold what `write_records` writes for sessions have exactly the frames of their records, in the order in
/// which they are read: the session frame, then session by session. Nothing is done.
pub fn law_of_written_records()
    ensures { WrittenAreRead }
{}

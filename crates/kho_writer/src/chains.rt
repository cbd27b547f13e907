//! The chain that is written for a set of runs.

ghost use Rattle.kho_writer.specs.Written.{WrittenIsChain};

use record_frames::laws::law_of_the_chain;

/// Frames that hold what `Tracker::write_chain` writes for a set of runs hold a chain of chunk frames, these in their
/// order, and it marks just these runs. Nothing is done.
pub(crate) fn law_of_the_written_chain()
    ensures { WrittenIsChain }
{
    law_of_the_chain();
}

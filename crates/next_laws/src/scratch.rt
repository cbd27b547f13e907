//! What is written into scratch areas changes nothing that is carried.

ghost use Rattle.next_laws.specs.Scratch.{ScratchIsFree};

/// Frames that carry a state carry it too where only frames of its scratch areas were written: no frame of the entry,
/// the records, the bound records or the files is one of a scratch area. Nothing is done.
pub fn law_of_scratch()
    ensures { ScratchIsFree }
{}

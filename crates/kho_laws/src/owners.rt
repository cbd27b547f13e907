//! The owners' rule, from the runs that are marked.

ghost use Rattle.kho_laws.specs.Marks.{MarkedAfter};
ghost use Rattle.kho_laws.specs.Owners.{OwnersFromMarks};

/// Where no two runs that are used share a frame, none has a frame of a scratch area or frame 0, and just those are
/// marked that have to be, every frame keeps the owners' rule. Nothing is done.
pub fn law_of_owners()
    ensures { OwnersFromMarks }
{}

/// Where just the runs of what is carried were marked, and then each frame of the entry and the records by itself, just
/// the runs are marked that have to be. Nothing is done.
pub fn law_of_marks()
    ensures { MarkedAfter }
{}

//! Laws of the entry frame: its tree says what was written, also with zeros behind its blob.

ghost use Rattle.kho_laws.specs.Entry.{SpellsWithMore};
ghost use Rattle.kho_laws.specs.Tree.{LuoAgain, RootAgain};

/// The tree that is written is read as it was meant: its root says the version, the machine's shape, the first chunk
/// frame and the child, and the child says the update number, the session frame and the frames of the bound records.
/// Nothing is done.
pub fn law_of_the_tree()
    ensures root { RootAgain }
    ensures child { LuoAgain }
{}

/// A blob spells its tree with any bytes behind it, so it does with the zeros that fill its frame. Nothing is done.
pub fn law_of_the_blob()
    ensures { SpellsWithMore }
{}

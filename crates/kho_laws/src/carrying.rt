//! What is written for a state carries it.

ghost use Rattle.kho_laws.specs.Carrying.{WrittenCarry};

use fdt_blob::laws::law_of_spelling;

/// Frames that hold what is written for a state carry it: the blob of the tree, the records of its sessions, a chain that
/// marks just the runs that have to be marked, and the bound records. What the files' runs have are its files' bytes.
/// Nothing is done.
pub fn law_of_carrying()
    ensures { WrittenCarry }
{
    law_of_spelling();
}

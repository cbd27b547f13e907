//! What written folios carry.

ghost use Rattle.kho_writer.specs.Folios.{FoliosCarry};

use crate::chains::law_of_the_written_chain;
use kho_laws::carrying::law_of_carrying;
use kho_laws::owners::law_of_marks;

/// Folios that are written for a state carry it, wherever the machine's frames hold their bytes. Nothing is done.
pub fn law_of_written_folios()
    ensures { FoliosCarry }
{
    law_of_the_written_chain();
    law_of_carrying();
    law_of_marks();
}

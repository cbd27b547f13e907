//! That folios hold bytes.

ghost use Rattle.std.specs.Prelude.{ℕ, ◌<◌, slice_index};
ghost use Rattle.kho_writer.specs.Folios.{HaveBytes};

use phys_frames::Folio;

/// Bytes are below 256. Nothing is done.
fn are_bytes(_bytes: &[u8])
    ensures { (j : ℕ) → slice_index _bytes.now j < 256 }
{}

/// What a folio holds are bytes. Nothing is done.
fn has_bytes(folio: &Folio)
    ensures { (j : ℕ) → slice_index folio.now.bytes j < 256 }
{
    are_bytes(folio.bytes());
}

/// What folios hold are bytes. Nothing of them is read.
pub(crate) fn have_bytes(folios: &[Folio])
    ensures { HaveBytes folios.now }
{
    for i in 0..folios.len() {
        has_bytes(&folios[i]);
    }
}

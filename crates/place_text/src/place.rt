//! The text of a place.

ghost use Rattle.std.specs.Prelude.{◌≡◌, IfOk, string_bytes};
ghost use Rattle.ho_events.specs.Text.{kind_word as kind_text};
ghost use Rattle.place_text.specs.Places.{part_word as part_text, place_words};

use fdt_blob::FdtPlace;
use ho_base::numbers::{Kind, Pfn};
use record_frames::ImagePlace;
use std::alloc::{AllocError, Global};

/// The word of a part of the entry frame's blob.
fn part_word(part: FdtPlace) -> &'static str
    ensures { result.now ≡ part_text part }
{
    match part {
        FdtPlace::Header => "header",
        FdtPlace::Reservations => "reservations",
        FdtPlace::Structure => "structure",
    }
}

/// The word of a kind of files.
fn kind_word(kind: Kind) -> &'static str
    ensures { result.now ≡ kind_text kind }
{
    match kind {
        Kind::Memfd => "memfd",
        Kind::Dev0 => "dev0",
        Kind::Dev1 => "dev1",
        Kind::Dev2 => "dev2",
        Kind::Dev3 => "dev3",
    }
}

/// The text that tells a place of frames that carry nothing: a word, for a blob's part or a bound record a second one, and
/// for a chunk frame, a frame of the records or an owned frame its number.
///
/// # Errors
///
/// [`AllocError`] where memory for the text was wanted.
pub fn place_text(alloc: Global, place: ImagePlace) -> Result<String, AllocError>
    ensures { IfOk result (λ text. string_bytes text ≡ place_words place) }
{
    match place {
        ImagePlace::Entry => String::from_str(alloc, "entry"),
        ImagePlace::Tree(part) => {
            let word = part_word(part);
            format!(in alloc; "tree {word}")
        }
        ImagePlace::Root => String::from_str(alloc, "root"),
        ImagePlace::Luo => String::from_str(alloc, "luo"),
        ImagePlace::Chain(number) => format!(in alloc; "chain {number}"),
        ImagePlace::Record(number) => format!(in alloc; "record {number}"),
        ImagePlace::Bound(kind) => {
            let word = kind_word(kind);
            format!(in alloc; "bound {word}")
        }
        ImagePlace::Owner(Pfn(number)) => format!(in alloc; "owner {number}"),
    }
}

//! The header of an image.

ghost use Rattle.std.specs.Prelude.{◌≡◌};
ghost use Rattle.image_file.specs.Image.{header};

use ho_base::bytes::put_u64;
use ho_base::numbers::Pfn;

/// What each image begins with.
pub(crate) const IMAGE_WORD: [u8; 8] = *b"KHOIMG1\n";

/// Bytes of the header. The frames follow.
pub(crate) const HEADER_BYTES: usize = 32;

/// The header of an image of so many frames with this entry frame.
pub(crate) fn header_of(count: u32, entry: Pfn) -> [u8; HEADER_BYTES]
    ensures { result ≡ header count entry.0 }
{
    let mut bytes = [0; HEADER_BYTES];
    bytes[..8].copy_from_slice(&IMAGE_WORD);
    put_u64(&mut bytes, 8, u64::from(count));
    put_u64(&mut bytes, 16, u64::from(entry.0));
    bytes
}

//! Bytes put into a folio of one frame, one after another.

ghost use Rattle.std.specs.Prelude.{◌≡◌, ◌+◌, ◌≤◌, ◌++◌, length};
ghost use Rattle.ho_base.specs.declared.limits.TheConstants.{PAGE_BYTES};
ghost use Rattle.fdt_blob.specs.Tokens.{padded, padding, word};
ghost use Rattle.kho_writer.specs.Layout.{Puts};

use phys_frames::Folio;

/// Puts bytes from `at` on, and gives the place behind them.
pub(crate) fn put(folio: &mut Folio, at: usize, bytes: &[u8]) -> usize
    requires size { length folio.old.bytes ≡ PAGE_BYTES }
    requires room { at + length bytes.now ≤ PAGE_BYTES }
    ensures put { Puts folio.old at bytes.now folio.new result }
    ensures end { result ≡ at + length bytes.now }
{
    folio.write(at, bytes);
    at + bytes.len()
}

/// Puts a number of four bytes, the highest first.
pub(crate) fn put_word(folio: &mut Folio, at: usize, n: u32) -> usize
    requires size { length folio.old.bytes ≡ PAGE_BYTES }
    requires room { at + 4 ≤ PAGE_BYTES }
    ensures put { Puts folio.old at (word n) folio.new result }
    ensures end { result ≡ at + 4 }
{
    put(folio, at, &n.to_be_bytes())
}

/// Puts three numbers of four bytes.
pub(crate) fn put_words(folio: &mut Folio, at: usize, a: u32, b: u32, c: u32) -> usize
    requires size { length folio.old.bytes ≡ PAGE_BYTES }
    requires room { at + 12 ≤ PAGE_BYTES }
    ensures put { Puts folio.old at (word a ++ (word b ++ word c)) folio.new result }
    ensures end { result ≡ at + 12 }
{
    let second = put_word(folio, at, a);
    let third = put_word(folio, second, b);
    put_word(folio, third, c)
}

/// Puts bytes, and zeros up to a multiple of four.
pub(crate) fn put_padded(folio: &mut Folio, at: usize, bytes: &[u8]) -> usize
    requires size { length folio.old.bytes ≡ PAGE_BYTES }
    requires room { at + length bytes.now + 3 ≤ PAGE_BYTES }
    ensures put { Puts folio.old at (padded bytes.now) folio.new result }
    ensures end { result ≡ at + length bytes.now + padding (length bytes.now) }
{
    let end = put(folio, at, bytes);
    put(folio, end, &[0, 0, 0][..(4 - bytes.len() % 4) % 4])
}

//! The properties of the bound records, and the strings block, which their names end.

ghost use Rattle.std.specs.Prelude.{◌≡◌, ◌+◌, ◌*◌, ◌≤◌, length, map};
ghost use Rattle.ho_base.specs.declared.limits.TheConstants.{PAGE_BYTES};
ghost use Rattle.kho_writer.specs.Entry.{number_at};
ghost use Rattle.kho_writer.specs.Layout.{Puts, bound_part, bounds_part, if_given, one as one_if, ones, strings_part};

use crate::entry::put::put;
use crate::entry::tokens::put_number;
use ho_base::numbers::Pfn;
use phys_frames::Folio;

/// The names that every tree has, in order of first use, each with its zero.
const FIXED_NAMES: &[u8] =
    b"compatible\0preserved-memory-map\0scratch\0liveupdate-number\0session-header\0";

/// Where the names of the bound records begin in the strings block.
const BOUNDS_AT: usize = 73;

/// How many bytes the name of a bound record has with its zero.
const NAME_BYTES: usize = 11;

/// How many bytes the property of a bound record has.
const PROPERTY_BYTES: usize = 20;

/// How many frames of bound records there are, one or none.
fn one(bound: Option<Pfn>) -> usize
    ensures value { result ≡ one_if (number_at bound) }
    ensures few { result ≤ 1 }
{
    match bound {
        None => 0,
        Some(_) => 1,
    }
}

/// How many bound records there are.
pub(crate) fn count_bounds(bounds: &[Option<Pfn>; 4]) -> usize
    ensures value { result ≡ ones (map number_at bounds.now) }
    ensures few { result ≤ 4 }
{
    let [dev0, dev1, dev2, dev3] = *bounds;
    one(dev0) + one(dev1) + one(dev2) + one(dev3)
}

/// Puts the property of a bound record, if there is one, behind those of `before` bound records, the first of which
/// stands at `base`. It gives how many there are then.
fn put_bound(folio: &mut Folio, base: usize, before: usize, bound: Option<Pfn>) -> usize
    requires few { before ≤ 3 }
    requires size { length folio.old.bytes ≡ PAGE_BYTES }
    requires room { base + 80 ≤ PAGE_BYTES }
    ensures put { Puts folio.old (base + 20 * before) (bound_part before (number_at bound)) folio.new (base + 20 * result) }
    ensures count { result ≡ before + one_if (number_at bound) }
    ensures few { result ≤ before + 1 }
{
    match bound {
        None => before,
        Some(p) => {
            let place = (BOUNDS_AT + NAME_BYTES * before) as u32;
            put_number(folio, base + PROPERTY_BYTES * before, place, u64::from(p.0));
            before + 1
        }
    }
}

/// Puts the properties of the bound records that there are, in order of kinds.
pub(crate) fn put_bounds(folio: &mut Folio, base: usize, bounds: &[Option<Pfn>; 4]) -> usize
    requires size { length folio.old.bytes ≡ PAGE_BYTES }
    requires room { base + 80 ≤ PAGE_BYTES }
    ensures put { Puts folio.old base (bounds_part 0 (map number_at bounds.now)) folio.new result }
    ensures end { result ≡ base + 20 * ones (map number_at bounds.now) }
    ensures within { result ≤ base + 80 }
{
    let [dev0, dev1, dev2, dev3] = *bounds;
    let first = put_bound(folio, base, 0, dev0);
    let second = put_bound(folio, base, first, dev1);
    let third = put_bound(folio, base, second, dev2);
    let fourth = put_bound(folio, base, third, dev3);
    base + PROPERTY_BYTES * fourth
}

/// Puts the name of a bound record, if there is one, behind `before` such names, the first of which stands at `base`;
/// `text` is the name with its zero. It gives how many there are then.
fn put_name(folio: &mut Folio, base: usize, before: usize, text: &[u8], bound: Option<Pfn>) -> usize
    requires few { before ≤ 3 }
    requires text { length text.now ≡ 11 }
    requires size { length folio.old.bytes ≡ PAGE_BYTES }
    requires room { base + 44 ≤ PAGE_BYTES }
    ensures put { Puts folio.old (base + 11 * before) (if_given text.now (number_at bound)) folio.new (base + 11 * result) }
    ensures count { result ≡ before + one_if (number_at bound) }
    ensures few { result ≤ before + 1 }
{
    match bound {
        None => before,
        Some(_) => {
            put(folio, base + NAME_BYTES * before, text);
            before + 1
        }
    }
}

/// Puts the strings block: the names that every tree has, and those of the bound records that there are.
pub(crate) fn put_names(folio: &mut Folio, at: usize, bounds: &[Option<Pfn>; 4]) -> usize
    requires size { length folio.old.bytes ≡ PAGE_BYTES }
    requires room { at + 117 ≤ PAGE_BYTES }
    ensures put { Puts folio.old at (strings_part (map number_at bounds.now)) folio.new result }
    ensures end { result ≡ at + 73 + 11 * ones (map number_at bounds.now) }
    ensures within { result ≤ at + 117 }
{
    let [dev0, dev1, dev2, dev3] = *bounds;
    let base = put(folio, at, FIXED_NAMES);
    let first = put_name(folio, base, 0, b"bound-dev0\0", dev0);
    let second = put_name(folio, base, first, b"bound-dev1\0", dev1);
    let third = put_name(folio, base, second, b"bound-dev2\0", dev2);
    let fourth = put_name(folio, base, third, b"bound-dev3\0", dev3);
    base + NAME_BYTES * fourth
}

//! Words that are put behind a text, each behind a blank.

ghost use Rattle.std.specs.Prelude.{◌≡◌, ◌++◌, decimal, OnOk};
ghost use Rattle.hex.specs.Hex.{encode_lower};
ghost use Rattle.ho_events.specs.Appended.{put};
ghost use Rattle.ho_events.specs.Text.{after_commas, hex_word, kind_word, runs_word, separated};

use ho_base::numbers::{Kind, Pfn};
use itoa::Buffer;
use std::alloc::AllocError;

/// Puts a word.
#[tactic(auto, unfolding(crate::specs::Appended::put))]
pub fn put_word(out: &mut Vec<u8>, word: &[u8]) -> Result<(), AllocError>
    ensures { OnOk result (out.new.items ≡ put out.old.items word.now) }
{
    out.push(b' ')?;
    out.extend_from_slice(word)
}

/// Puts a number, in decimal.
#[tactic(auto, unfolding(crate::specs::Appended::put))]
pub fn put_number(out: &mut Vec<u8>, number: u64) -> Result<(), AllocError>
    ensures { OnOk result (out.new.items ≡ put out.old.items (decimal number)) }
{
    put_word(out, &[])?;
    extend_number(out, number)
}

/// Puts a number behind a mark, as `f0`.
#[tactic(auto, unfolding(crate::specs::Appended::put))]
pub fn put_marked(out: &mut Vec<u8>, mark: &[u8], number: u64) -> Result<(), AllocError>
    ensures { OnOk result (out.new.items ≡ put out.old.items (mark.now ++ decimal number)) }
{
    put_word(out, mark)?;
    extend_number(out, number)
}

/// Puts bytes in lower case hexadecimal, and `-` for no bytes.
#[tactic(auto, unfolding(crate::specs::Appended::put))]
pub fn put_hex(out: &mut Vec<u8>, bytes: &[u8]) -> Result<(), AllocError>
    ensures { OnOk result (out.new.items ≡ put out.old.items (hex_word bytes.now)) }
{
    if bytes.is_empty() {
        return put_word(out, b"-");
    }
    put_word(out, &[])?;
    extend_hex(out, bytes)
}

/// Appends bytes in lower case hexadecimal.
fn extend_hex(out: &mut Vec<u8>, bytes: &[u8]) -> Result<(), AllocError>
    ensures { OnOk result (out.new.items ≡ out.old.items ++ encode_lower bytes.now) }
{
    let start = out.len();
    let Some(digits) = bytes.len().checked_mul(2) else {
        return Err(AllocError);
    };
    let Some(end) = start.checked_add(digits) else {
        return Err(AllocError);
    };
    out.resize(end, 0)?;
    hex::encode_to_slice(bytes, &mut out[start..]).unwrap();
    Ok(())
}

/// Puts the word of a file's kind.
pub fn put_kind(out: &mut Vec<u8>, kind: Kind) -> Result<(), AllocError>
    ensures { OnOk result (out.new.items ≡ put out.old.items (kind_word kind)) }
{
    match kind {
        Kind::Memfd => put_word(out, b"memfd"),
        Kind::Dev0 => put_word(out, b"dev0"),
        Kind::Dev1 => put_word(out, b"dev1"),
        Kind::Dev2 => put_word(out, b"dev2"),
        Kind::Dev3 => put_word(out, b"dev3"),
    }
}

/// Puts a list of frames, as `[9,10]`.
#[tactic(auto, unfolding(crate::specs::Appended::put, crate::specs::Text::runs_word))]
pub fn put_runs(out: &mut Vec<u8>, runs: &[Pfn]) -> Result<(), AllocError>
    ensures { OnOk result (out.new.items ≡ put out.old.items (runs_word runs.now)) }
{
    put_word(out, b"[")?;
    extend_separated(out, runs)?;
    out.extend_from_slice(b"]")
}

/// Appends numbers of frames, with a comma before each but the first.
fn extend_separated(out: &mut Vec<u8>, runs: &[Pfn]) -> Result<(), AllocError>
    ensures { OnOk result (out.new.items ≡ out.old.items ++ separated runs.now) }
{
    if let [first, rest @ ..] = runs {
        extend_number(out, u64::from(first.0))?;
        extend_after_commas(out, rest)?;
    }
    Ok(())
}

/// Appends numbers of frames, with a comma before each.
fn extend_after_commas(out: &mut Vec<u8>, runs: &[Pfn]) -> Result<(), AllocError>
    ensures { OnOk result (out.new.items ≡ out.old.items ++ after_commas runs.now) }
{
    for run in runs {
        out.push(b',')?;
        extend_number(out, u64::from(run.0))?;
    }
    Ok(())
}

/// Appends a number, in decimal. Most numbers have one digit, which needs no buffer.
#[tactic(auto, using(std::proofs::lemmas::Fmt::decimal_digit))]
pub fn extend_number(out: &mut Vec<u8>, number: u64) -> Result<(), AllocError>
    ensures { OnOk result (out.new.items ≡ out.old.items ++ decimal number) }
{
    if number < 10 {
        out.push(b'0' + number as u8)?;
        return Ok(());
    }
    let mut buffer = Buffer::new();
    out.extend_from_slice(buffer.format(number).as_bytes())
}

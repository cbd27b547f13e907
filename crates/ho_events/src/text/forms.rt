//! Words that stand together: a first word, and what it speaks of.

ghost use Rattle.std.specs.Prelude.{◌≡◌, [], ◌∷◌, ◌++◌, decimal, OnOk};
ghost use Rattle.ho_events.specs.Appended.{puts};
ghost use Rattle.ho_events.specs.Text.{file_word, hex_word, runs_word};

use crate::text::words::{put_hex, put_marked, put_number, put_runs, put_word};
use ho_base::name::Name;
use ho_base::numbers::{FileNo, Order, Pfn, Token};
use std::alloc::AllocError;

/// Puts a word and a number.
pub fn put_with_number(out: &mut Vec<u8>, verb: &[u8], number: u64) -> Result<(), AllocError>
    ensures { OnOk result (out.new.items ≡ puts out.old.items (verb.now ∷ decimal number ∷ [])) }
{
    put_word(out, verb)?;
    put_number(out, number)
}

/// Puts a word and two numbers.
pub fn put_with_numbers(
    out: &mut Vec<u8>,
    verb: &[u8],
    first: u64,
    second: u64,
) -> Result<(), AllocError>
    ensures { OnOk result (out.new.items ≡ puts out.old.items (verb.now ∷ decimal first ∷ decimal second ∷ [])) }
{
    put_word(out, verb)?;
    put_number(out, first)?;
    put_number(out, second)
}

/// Puts a word and a number behind a mark, as `Ok f0`.
pub fn put_with_marked(
    out: &mut Vec<u8>,
    verb: &[u8],
    mark: &[u8],
    number: u64,
) -> Result<(), AllocError>
    ensures { OnOk result (out.new.items ≡ puts out.old.items (verb.now ∷ (mark.now ++ decimal number) ∷ [])) }
{
    put_word(out, verb)?;
    put_marked(out, mark, number)
}

/// Puts a word and bytes.
pub fn put_with_hex(out: &mut Vec<u8>, verb: &[u8], bytes: &[u8]) -> Result<(), AllocError>
    ensures { OnOk result (out.new.items ≡ puts out.old.items (verb.now ∷ hex_word bytes.now ∷ [])) }
{
    put_word(out, verb)?;
    put_hex(out, bytes)
}

/// Puts a word and runs.
pub fn put_with_runs(out: &mut Vec<u8>, verb: &[u8], runs: &[Pfn]) -> Result<(), AllocError>
    ensures { OnOk result (out.new.items ≡ puts out.old.items (verb.now ∷ runs_word runs.now ∷ [])) }
{
    put_word(out, verb)?;
    put_runs(out, runs)
}

/// Puts a word, an order and runs of it.
pub fn put_with_order_and_runs(
    out: &mut Vec<u8>,
    verb: &[u8],
    order: Order,
    runs: &[Pfn],
) -> Result<(), AllocError>
    ensures { OnOk result (out.new.items ≡ puts out.old.items (verb.now ∷ decimal order.0 ∷ runs_word runs.now ∷ [])) }
{
    put_with_number(out, verb, u64::from(order.0))?;
    put_runs(out, runs)
}

/// Puts a word and a name.
pub fn put_with_name(out: &mut Vec<u8>, verb: &[u8], name: &Name) -> Result<(), AllocError>
    ensures { OnOk result (out.new.items ≡ puts out.old.items (verb.now ∷ name.now ∷ [])) }
{
    put_word(out, verb)?;
    put_word(out, name.as_bytes())
}

/// Puts a word, a session's name and a token.
pub fn put_with_token(
    out: &mut Vec<u8>,
    verb: &[u8],
    session: &Name,
    token: Token,
) -> Result<(), AllocError>
    ensures { OnOk result (out.new.items ≡ puts out.old.items (verb.now ∷ session.now ∷ decimal token.0 ∷ [])) }
{
    put_with_name(out, verb, session)?;
    put_number(out, token.0)
}

/// Puts a word and a file.
pub fn put_with_file(out: &mut Vec<u8>, verb: &[u8], file: FileNo) -> Result<(), AllocError>
    ensures { OnOk result (out.new.items ≡ puts out.old.items (verb.now ∷ file_word file ∷ [])) }
{
    put_with_marked(out, verb, b"f", u64::from(file.0))
}

/// Puts a word, a file and its handle.
pub fn put_with_handle(
    out: &mut Vec<u8>,
    verb: &[u8],
    file: FileNo,
    handle: u64,
) -> Result<(), AllocError>
    ensures { OnOk result (out.new.items ≡ puts out.old.items (verb.now ∷ file_word file ∷ decimal handle ∷ [])) }
{
    put_with_file(out, verb, file)?;
    put_number(out, handle)
}

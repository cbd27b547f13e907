//! Cuts a script into lines, and a line into words.

ghost use Rattle.std.specs.Prelude.{◌≡◌, ◌<◌, [], ◌∷◌, not, length, position, MatchOption};
ghost use Rattle.std.specs.List.{list_all};
ghost use Rattle.ho_events.specs.Script.Words.{is_line_feed, is_blank as blank, is_script_byte as script_byte, is_comment as comment, lines, words};

use memchr::{memchr, memchr2};

/// The first line without its line feed, and the bytes after that.
pub fn next_line(bytes: &[u8]) -> (&[u8], &[u8])
    requires { 0 < length bytes.now }
    ensures cut { lines bytes.now ≡ result.0.now ∷ lines result.1.now }
    ensures shorter { length result.1.now < length bytes.now }
{
    match first_line_feed(bytes) {
        Some(end) => (&bytes[..end], &bytes[end + 1..]),
        None => (bytes, &bytes[bytes.len()..]),
    }
}

/// The first word of a line and the bytes after it; none exactly where the line has no word.
pub fn next_word(line: &[u8]) -> Option<(&[u8], &[u8])>
    ensures { MatchOption result (words line.now ≡ []) (λ cut. words line.now ≡ cut.0.now ∷ words cut.1.now) }
{
    let rest = &line[first_of_word(line)?..];
    match first_blank(rest) {
        Some(end) => Some((&rest[..end], &rest[end + 1..])),
        None => Some((rest, &rest[rest.len()..])),
    }
}

/// Whether a script may have each of these bytes. Each is looked at, so that several are at a time.
pub fn has_script_bytes(line: &[u8]) -> bool
    ensures { result ≡ list_all script_byte line.now }
{
    let mut all = true;
    for b in line {
        all &= is_script_byte(*b);
    }
    all
}

/// Whether a first word begins a comment.
pub fn is_comment(word: &[u8]) -> bool
    ensures { result ≡ comment word.now }
{
    match word {
        [b'#', ..] => true,
        _ => false,
    }
}

/// Whether a script may have this byte: a line feed, a tab, or one from 32 to 126.
fn is_script_byte(b: u8) -> bool
    ensures { result ≡ script_byte b }
{
    (b == b'\n') | (b == b'\t') | ((32 <= b) & (b <= 126))
}

/// Whether this byte is a tab or a space.
fn is_blank(b: u8) -> bool
    ensures { result ≡ blank b }
{
    b == b'\t' || b == b' '
}

/// Where the first line feed stands.
fn first_line_feed(bytes: &[u8]) -> Option<usize>
    ensures { result ≡ position is_line_feed bytes.now }
{
    memchr(b'\n', bytes)
}

/// Where the first tab or space stands.
fn first_blank(bytes: &[u8]) -> Option<usize>
    ensures { result ≡ position blank bytes.now }
{
    memchr2(b'\t', b' ', bytes)
}

/// Where the first word begins.
fn first_of_word(bytes: &[u8]) -> Option<usize>
    ensures { result ≡ position (λ b. not (blank b)) bytes.now }
{
    bytes.iter().position(|b| !is_blank(*b))
}

// Two words in one field: read from bytes, tested, and written back.
ghost use Rattle.std.specs.Prelude.{◌≡◌};
ghost use Rattle.text.specs.Text.{written_next, written_bytes};
ghost use Rattle.fields.specs.Pair.{pair_of, pair_text, is_pair, pair_word, is_pair_text};

use crate::words::{holds, read};
use text::{NotWritten, writing};

// A field of the first kind, then optionally a slash and one of the second.
pub(crate) fn read_pair(first: u8, second: u8, s: &[u8]) -> Option<(u64, u64)>
    ensures { result ≡ pair_of first second s.now }
{
    let i = shapes::find(b'/', s);
    if i >= s.len() {
        let a = read(first, s)?;
        return Some((a, 0));
    }
    let a = read(first, &s[..i])?;
    let b = read(second, &s[i + 1..])?;
    Some((a, b))
}

// Whether a and b are words that some text of the two kinds gives.
pub(crate) fn holds_pair(first: u8, second: u8, a: u64, b: u64) -> bool
    ensures { result ≡ is_pair first second a b }
{
    holds(first, a) && (b == 0 || holds(second, b))
}

// The word of the whole text.
pub(crate) fn pair_word(a: u64, b: u64) -> Option<u64>
    ensures { result ≡ pair_word a b }
{
    if b == 0 { Some(a) } else { writing::join(a, b) }
}

// Writes the text of two words of the kinds from place `at`.
pub(crate) fn put_pair(
    first: u8,
    second: u8,
    a: u64,
    b: u64,
    out: &mut [u8],
    at: usize,
) -> Result<usize, NotWritten>
    ensures value { result ≡ written_next (is_pair_text first second a b) (pair_text a b) out.old at }
    ensures out_after { out.new ≡ written_bytes (is_pair_text first second a b) (pair_text a b) out.old at }
{
    if !holds_pair(first, second, a, b) {
        return Err(NotWritten::NoText);
    }
    let word = pair_word(a, b).ok_or(NotWritten::NoText)?;
    writing::put(word, out, at)
}

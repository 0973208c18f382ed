// Short texts of capitals, digits and '/', at most 12 bytes, each held as one u64: 12 places of base 38, left-justified,
// 0 for no byte, '0'..'9' 1 to 10, 'A'..'Z' 11 to 36, '/' 37. Digits to any base. Nothing here knows of lines or fields.

#![tactic(auto)]

pub mod decimals;
pub mod writing;

ghost use Rattle.std.specs.Prelude.{◌≡◌, true};
ghost use Rattle.text.specs.Class.{is_text_byte};
ghost use Rattle.text.specs.Code.{code_of};
ghost use Rattle.text.specs.Number.{read_number};
ghost use Rattle.text.specs.Text.{is_text, packed, pack_of};

// Why a writer writes nothing: no room from the given place, or nothing that can be written. Else it answers the place after what it wrote.
#[derive(Clone, Copy, PartialEq, Eq)]
pub enum NotWritten {
    NoRoom,
    NoText,
}

// 38 to the 12th: one more than the largest packed text could be.
pub const TOP: u64 = 9065737908494995456;

// A byte's code, or 0 where it has none.
pub(crate) fn code(b: u8) -> u64
    ensures { result ≡ code_of b }
{
    if b < 48 {
        if b == 47 {
            return 37;
        }
        return 0;
    }
    if b <= 57 {
        return (b as u64) - 47;
    }
    if b < 65 {
        return 0;
    }
    if b <= 90 {
        return (b as u64) - 54;
    }
    0
}

// The number of the text s, where s is one.
pub(crate) fn pack(s: &[u8]) -> Option<u64>
    ensures { result ≡ pack_of s.now }
{
    if s.len() > 12 {
        return None;
    }
    let mut n: u64 = 0;
    let mut w: u64 = TOP;
    for b in s {
        let c = code(*b);
        if c == 0 {
            return None;
        }
        w = w / 38;
        n += c * w;
    }
    Some(n)
}

// The code of a text byte.
fn text_code(b: u8) -> u64
    requires { is_text_byte b ≡ true }
    ensures { result ≡ code_of b }
{
    if b > 64 {
        return (b as u64) - 54;
    }
    if b > 47 {
        return (b as u64) - 47;
    }
    37
}

// The number of s, which is known to be a text: no byte is tested again.
pub fn pack_known(s: &[u8]) -> u64
    requires { is_text s.now ≡ true }
    ensures { result ≡ packed s.now }
{
    let mut n: u64 = 0;
    let mut w: u64 = TOP;
    for b in s {
        w = w / 38;
        n += text_code(*b) * w;
    }
    n
}

// The number that at most 12 digits are, to a base of at most 36.
pub fn number(s: &[u8], base: u64) -> Option<u64>
    ensures { result ≡ read_number base s.now }
{
    if base > 36 {
        return None;
    }
    if s.len() > 12 {
        return None;
    }
    let mut n: u64 = 0;
    for b in s {
        let c = code(*b);
        if c == 0 {
            return None;
        }
        if c > base {
            return None;
        }
        n = n * base + (c - 1);
    }
    Some(n)
}

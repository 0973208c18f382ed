// Passes over many bytes, written without an early way out so that the compiler takes sixteen at a time. Nothing here
// knows of lines or fields.
ghost use Rattle.std.specs.Prelude.{◌≡◌, ◌≤◌, length};
ghost use Rattle.text.specs.Place.{all_in};
ghost use Rattle.shapes.specs.Cut.{up_to, has};
ghost use Rattle.shapes.specs.Many.{how_many, twice};

use crate::find;

// How many bytes of s a counter of one byte is used for: at most 255, and a whole number of sixteens.
const FEW: usize = 224;

// Whether each byte of s is from lo to hi.
pub fn each_within(lo: u8, hi: u8, s: &[u8]) -> bool
    ensures { result ≡ all_in lo hi s.now }
{
    s.iter().fold(true, |all, b| all & (lo <= *b) & (*b <= hi))
}

// Whether one of the bytes of s is b.
fn holds(b: u8, s: &[u8]) -> bool
    ensures { result ≡ has b s.now }
{
    s.iter().fold(false, |some, x| some | (*x == b))
}

// The index of the first byte of s that is b, or s's length: as `shapes::find`, for where it is some way off.
pub fn find_far(b: u8, s: &[u8]) -> usize
    ensures { result ≡ up_to b s.now }
{
    // The whole sixteens that stand before the one with b.
    let passed = s
        .chunks_exact(16)
        .take_while(|part| !holds(b, *part))
        .count();
    let i = passed * 16;
    i + find(b, &s[i..])
}

// How many bytes of s are b, of so few that a byte counts them.
fn how_many_of_few(b: u8, s: &[u8]) -> u8
    requires { length s.now ≤ 255 }
    ensures { result ≡ how_many b s.now }
{
    // `filter(..).count()` counts in words of eight bytes: 377 instructions a line of 50 bytes in place of 83.
    let mut n: u8 = 0;
    for x in s {
        n += (*x == b) as u8;
    }
    n
}

// How many bytes of s are b.
pub fn how_many(b: u8, s: &[u8]) -> usize
    ensures { result ≡ how_many b s.now }
{
    let mut n: usize = 0;
    for part in s.chunks(FEW) {
        n += how_many_of_few(b, part) as usize;
    }
    n
}

// Whether two b stand side by side in s.
pub fn has_twice(b: u8, s: &[u8]) -> bool
    ensures { result ≡ twice b s.now }
{
    // By the index: a fold over `windows(2)` takes 239 instructions a line of 50 bytes in place of 109.
    let mut some = false;
    for i in 1..s.len() {
        some = some | ((s[i - 1] == b) & (s[i] == b));
    }
    some
}

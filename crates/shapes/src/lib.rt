// What the rules of fields are made of, as tests on bytes: a picture, a run of one class, and the place of a byte. Nothing here knows
// which fields there are.

#![tactic(auto)]

pub mod sweeps;

ghost use Rattle.std.specs.Prelude.{◌≡◌, ◌&&◌, leb};
ghost use Rattle.text.specs.Class.{is_alnum};
ghost use Rattle.shapes.specs.Picture.{is_of, fits as fitting, one_of, run as running, either};
ghost use Rattle.shapes.specs.Cut.{up_to};

fn between(lo: u8, hi: u8, b: u8) -> bool
    ensures { result ≡ (leb lo b && leb b hi) }
{
    lo <= b && b <= hi
}

fn one_of_two(x: u8, y: u8, b: u8) -> bool
    ensures { result ≡ either x y b }
{
    b == x || b == y
}

fn is_alnum(b: u8) -> bool
    ensures { result ≡ is_alnum b }
{
    between(b'0', b'9', b) || between(b'A', b'Z', b)
}

// Whether b is what the letter k of a picture stands for.
pub fn is_of(k: u8, b: u8) -> bool
    ensures { result ≡ is_of k b }
{
    match k {
        b'd' => between(b'0', b'9', b),
        b'l' => between(b'A', b'Z', b),
        b'a' => is_alnum(b),
        b'h' => between(b'0', b'9', b) || between(b'A', b'F', b),
        b'n' => one_of_two(b'N', b'S', b),
        b'e' => one_of_two(b'E', b'W', b),
        b't' => b == b'D' || one_of_two(b'E', b'P', b),
        b'm' => one_of_two(b'A', b'E', b),
        b'v' => between(33, 126, b),
        _ => b == k,
    }
}

pub(crate) fn fits(picture: &[u8], s: &[u8]) -> bool
    ensures { result ≡ fitting picture.now s.now }
{
    picture.len() == s.len() && picture.iter().zip(s).all(|(k, b)| is_of(*k, *b))
}

// The index of the first byte of s that is b, or s's length.
pub fn find(b: u8, s: &[u8]) -> usize
    ensures { result ≡ up_to b s.now }
{
    s.iter().position(|x| *x == b).unwrap_or(s.len())
}

// Whether one of the pictures, which stand with a bar between them, fits s.
pub fn one_of(pictures: &[u8], s: &[u8]) -> bool
    ensures { result ≡ one_of pictures.now s.now }
{
    pictures
        .split(|k| *k == b'|')
        .any(|picture| fits(picture, s))
}

// Whether s has least to most bytes, each of the class k.
pub fn run(k: u8, least: usize, most: usize, s: &[u8]) -> bool
    ensures { result ≡ running k least most s.now }
{
    least <= s.len() && s.len() <= most && s.iter().all(|b| is_of(k, *b))
}

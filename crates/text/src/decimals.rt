// A number as its decimal digits, no zero in front.
ghost use Rattle.std.specs.Prelude.{◌≡◌, true, length};
ghost use Rattle.text.specs.Text.{written_next, written_bytes};
ghost use Rattle.text.specs.Decimal.{decimal};

use crate::NotWritten;
use crate::writing::has_room;

// How many digits n has.
pub fn size(n: u64) -> usize
    ensures { result ≡ length (decimal n) }
{
    // most numbers have one digit
    if n < 10 {
        return 1;
    }
    n.ilog10() as usize + 1
}

// Writes the digits of n from place `at`, the last one first; without room it writes nothing.
pub fn put(n: u64, out: &mut [u8], at: usize) -> Result<usize, NotWritten>
    ensures value { result ≡ written_next true (decimal n) out.old at }
    ensures out_after { out.new ≡ written_bytes true (decimal n) out.old at }
{
    let w = size(n);
    if !has_room(w, out.len(), at) {
        return Err(NotWritten::NoRoom);
    }
    let mut r = n;
    for k in (0..w).rev() {
        out[at + k] = 48 + (r % 10) as u8;
        r = r / 10;
    }
    Ok(at + w)
}

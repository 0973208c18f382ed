// Numbers as bytes, high byte first: `text`'s digits to the base 256.
ghost use Rattle.std.specs.Prelude.{◌≡◌, ◌+◌, ◌*◌, ◌^◌, ◌≤◌, ◌<◌, length};
ghost use Rattle.text.specs.Place.{value, places};
ghost use Rattle.text.specs.Text.{spliced};
ghost use Rattle.dayfile.specs.DayFile.{index_of};

// The number that so few bytes are.
pub(crate) fn read_number(s: &[u8]) -> usize
    requires { length s.now ≤ 4 }
    ensures value { result ≡ value 256 (length s.now) s.now }
    ensures upper_bound { result < 256 ^ length s.now }
{
    let mut n: usize = 0;
    for &b in s {
        n = n * 256 + b as usize;
    }
    n
}

// Puts the bytes of n, as many as it is wide, from place `at`, where there is room: the last one first.
pub(crate) fn put_number(n: usize, wide: usize, out: &mut [u8], at: usize)
    requires n_bound { n < 256 ^ wide }
    requires wide_in_bounds { at + wide ≤ length out.old }
    ensures { out.new ≡ spliced out.old at (places 256 wide n) }
{
    let mut r = n;
    for k in (0..wide).rev() {
        out[at + k] = (r % 256) as u8;
        r /= 256;
    }
}

// Puts the offsets from place `at`, four bytes each, where there is room.
pub fn put_index(offsets: &[u32], out: &mut [u8], at: usize)
    requires { at + 4 * length offsets.now ≤ length out.old }
    ensures { out.new ≡ spliced out.old at (index_of offsets.now) }
{
    for (k, &offset) in offsets.iter().enumerate() {
        put_number(offset as usize, 4, out, at + 4 * k);
    }
}

// Short texts and bytes written into a lent buffer: how long a text is, whether it has room, and two texts with a slash between.
ghost use Rattle.std.specs.Prelude.{◌≡◌, true, ◌+◌, ◌≤◌, leb, length};
ghost use Rattle.text.specs.Code.{byte_of};
ghost use Rattle.text.specs.Text.{size_of, join_of, is_packed, text_of, spliced, written_next, written_bytes};

use crate::{NotWritten, TOP, pack};

// The byte of a code.
fn byte(d: u64) -> u8
    requires { d ≤ 37 }
    ensures { result ≡ byte_of d }
{
    if d <= 10 {
        return (d + 47) as u8;
    }
    if d <= 36 {
        return (d + 54) as u8;
    }
    47
}

// How many bytes the text of t has, where t is the number of one.
pub fn size(t: u64) -> Option<usize>
    ensures { result ≡ size_of t }
{
    if t >= TOP {
        return None;
    }
    let mut r = t;
    let mut w: u64 = TOP;
    let mut k: usize = 0;
    // What is left ends the loop and not a count: a `for` over the twelve places would only add a way out of its middle.
    while r > 0 {
        w = w / 38;
        if r < w {
            return None;
        }
        r = r % w;
        k += 1;
    }
    Some(k)
}

// Whether n bytes have room from place `at` to the end of a buffer of len bytes; past that end even no bytes have.
pub fn has_room(n: usize, len: usize, at: usize) -> bool
    ensures { result ≡ leb (at + n) len }
{
    at <= len && n <= len - at
}

// Writes the text of t from place `at`, where it fits.
fn write(t: u64, out: &mut [u8], at: usize) -> usize
    requires t_value { is_packed t ≡ true }
    requires t_in_bounds { at + length (text_of t) ≤ length out.old }
    ensures value { result ≡ at + length (text_of t) }
    ensures out_after { out.new ≡ spliced out.old at (text_of t) }
{
    let mut r = t;
    let mut w: u64 = TOP;
    let mut j: usize = 0;
    // As in `size`, what is left ends the loop and not a count, so no `for` is plainer.
    while r > 0 {
        w = w / 38;
        out[at + j] = byte(r / w);
        r = r % w;
        j += 1;
    }
    at + j
}

// Writes the text of t from place `at`, and leaves every other byte as it is; where it refuses it writes nothing.
pub fn put(t: u64, out: &mut [u8], at: usize) -> Result<usize, NotWritten>
    ensures value { result ≡ written_next (is_packed t) (text_of t) out.old at }
    ensures out_after { out.new ≡ written_bytes (is_packed t) (text_of t) out.old at }
{
    let Some(n) = size(t) else {
        return Err(NotWritten::NoText);
    };
    if !has_room(n, out.len(), at) {
        return Err(NotWritten::NoRoom);
    }
    Ok(write(t, out, at))
}

// Writes the bytes s from place `at`, and leaves every other byte as it is; where there is no room it writes nothing.
pub fn put_bytes(s: &[u8], out: &mut [u8], at: usize) -> Result<usize, NotWritten>
    ensures value { result ≡ written_next true s.now out.old at }
    ensures out_after { out.new ≡ written_bytes true s.now out.old at }
{
    if !has_room(s.len(), out.len(), at) {
        return Err(NotWritten::NoRoom);
    }
    let end = at + s.len();
    out[at..end].copy_from_slice(s);
    Ok(end)
}

// The number of the text of a, a slash and the text of b, where these are texts and 12 bytes hold them.
pub fn join(a: u64, b: u64) -> Option<u64>
    ensures { result ≡ join_of a b }
{
    // a fixed room: nothing is put on the heap
    let mut room = [0u8; 12];
    let Ok(n) = put(a, &mut room, 0) else {
        return None;
    };
    if n >= 12 {
        return None;
    }
    room[n] = b'/';
    let Ok(end) = put(b, &mut room, n + 1) else {
        return None;
    };
    pack(&room[..end])
}

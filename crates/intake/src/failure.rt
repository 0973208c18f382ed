// What the system says of a call that failed, in its own words, on standard error. Nothing is allocated.
ghost use Rattle.std.specs.Prelude.{◌≤◌, length};

use crate::STANDARD_ERROR;
use shapes::find;
use std::fmt;
use std::fmt::Write;
use std::io::Error;

// The words of an error, of which the first 256 bytes are kept.
#[derive(Drop)]
struct Words {
    bytes: [u8; 256],
    size: usize,
    ghost fits: { size ≤ 256 },
}

impl Write for Words {
    fn write_str(&mut self, s: &str) -> fmt::Result {
        for b in s.as_bytes() {
            if self.size >= 256 {
                return Err(fmt::Error);
            }
            self.bytes[self.size] = *b;
            self.size += 1;
        }
        Ok(())
    }
}

// Where the words end: before a bracket and the space in front of it.
fn end_of(said: &[u8]) -> usize
    ensures { result ≤ length said.now }
{
    let n = find(b'(', said);
    if n >= said.len() {
        return said.len();
    }
    if n == 0 {
        return 0;
    }
    n - 1
}

// What failed, as the caller names it, a colon and the system's words. The number that stands behind these in brackets is left out.
pub fn fail(name: &[u8], error: &Error) {
    let mut words = Words {
        bytes: [0; 256],
        size: 0,
    };
    let _ = write!(words, "{error}");
    let said = &words.bytes[..words.size];
    let end = end_of(said);
    io::write_all(STANDARD_ERROR, name);
    io::write_all(STANDARD_ERROR, b": ");
    io::write_all(STANDARD_ERROR, &said[..end]);
    io::write_all(STANDARD_ERROR, b"\n");
}

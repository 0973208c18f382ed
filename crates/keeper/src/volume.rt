// THE EDGE where a day file is read, by windows: the kit's contract of `read_at` says how many bytes came, and not which. That they are those of the file at that
// place is its word, and these few lines are what is left to the eye. Nothing outside this file can make a `Volume`.
ghost use Rattle.std.specs.Prelude.{◌≡◌, ◌+◌, ◌^◌, ◌<◌, length, IsOk, IfSome};
ghost use Rattle.std.specs.Fd.{file_raw_fd};
ghost use Rattle.std.specs.Io.{ReadsAtMost};

use intake::failure::fail;
use std::fs::File;
use std::io::{Error, Result, Seek, SeekFrom};
use std::os::fd::AsRawFd;
use std::os::unix::fs::FileExt;

// The system's numbers for places are below 2 to the 63rd.
const LONGEST_FILE: u64 = 9223372036854775807;

// The system's numbers for a file that is too large, and for a descriptor that is not open.
const TOO_LARGE: i32 = 27;

const NOT_OPEN: i32 = 9;

// A file that can be read from any place, by its number, and how many bytes it has. The file itself is lent to each read: what the specs say of a window
// speaks of sizes, and a file that is borrowed here would give it a lifetime for one test that goes.
#[derive(Clone, Copy)]
pub struct Volume {
    fd: i32,
    size: usize,
    ghost fits: { size < 2 ^ 63 },
}

// A window that was read: from which place of the file on, how many bytes it has, and how many came. Nothing outside this file can make one.
#[derive(Clone, Copy)]
pub struct Filled {
    from: usize,
    size: usize,
    came: usize,
}

// One read of the descriptor from a place. A file that has another descriptor is not open here.
fn read_from(file: &File, fd: i32, window: &mut [u8], place: u64) -> Result<usize>
    ensures within { ReadsAtMost result window.new }
    ensures own { IsOk result → file_raw_fd file.now ≡ fd }
{
    if file.as_raw_fd() != fd {
        return Err(Error::from_raw_os_error(NOT_OPEN));
    }
    file.read_at(window, place)
}

impl Volume {
    // How long the file is. One that has no places, as a pipe, or no bytes, as a directory, says so by its first byte: None, and that is told.
    pub(crate) fn measure(file: &File, name: &[u8]) -> Option<Volume> {
        let mut first = [0u8; 1];
        if let Err(error) = file.read_at(&mut first, 0) {
            fail(name, &error);
            return None;
        }
        let mut places = file;
        let end = match places.seek(SeekFrom::End(0)) {
            Ok(end) => end,
            Err(error) => {
                fail(name, &error);
                return None;
            }
        };
        if end > LONGEST_FILE {
            fail(name, &Error::from_raw_os_error(TOO_LARGE));
            return None;
        }
        Some(Volume {
            fd: file.as_raw_fd(),
            size: end as usize,
        })
    }

    pub(crate) fn size(self) -> usize
        ensures { result ≡ self.size }
    {
        self.size
    }

    // Fills the window with the file's bytes from place `from` on. Where they cannot be read, or are not there any more, it says so: None.
    pub(crate) fn fill(
        self,
        name: &[u8],
        from: usize,
        window: &mut [u8],
        file: &File,
    ) -> Option<Filled>
        requires { from + length window.old < 2 ^ 63 }
        ensures { IfSome result (λ f. (f.from ≡ from) × (f.size ≡ length window.old) × (f.came ≡ f.size)) }
    {
        let size = window.len();
        let mut rest = &mut window[..];
        while !rest.is_empty() {
            let place = from + (size - rest.len());
            let n = match read_from(file, self.fd, rest, place as u64) {
                Ok(n) => n,
                Err(error) => {
                    fail(name, &error);
                    return None;
                }
            };
            if n == 0 {
                intake::say(name, b"it ended while it was read");
                return None;
            }
            rest = &mut rest[n..];
        }
        let came = size - rest.len();
        Some(Filled { from, size, came })
    }
}

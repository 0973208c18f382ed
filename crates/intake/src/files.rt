// Files by the names that a command line gives. What goes wrong is said.
ghost use Rattle.std.specs.Prelude.{◌≡◌, IsUtf8, MatchOption};

use crate::failure::fail;
use crate::say;
use std::fs::File;
use std::rt::Files;
use std::str::from_utf8;

// A name as the library takes it, which is text.
pub fn path_of(name: &[u8]) -> Option<&str>
    ensures { MatchOption result (¬ IsUtf8 name.now) (λ path. (path.now ≡ name.now) × IsUtf8 name.now) }
{
    match from_utf8(name) {
        Ok(path) => Some(path),
        Err(_) => {
            say(name, b"no file has this name here, as it is not UTF-8");
            None
        }
    }
}

// The file of that name, to be read.
pub fn open<R: Files>(rt: &R, name: &[u8]) -> Option<R::File> {
    match File::open(rt, path_of(name)?) {
        Ok(file) => Some(file),
        Err(error) => {
            fail(name, &error);
            None
        }
    }
}

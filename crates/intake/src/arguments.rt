// The words of a command line, as the system gives them.
ghost use Rattle.std.specs.Prelude.{◌≤◌, length, IfSome};

use crate::failure::fail;
use std::env::FillError;
use std::io::Error;
use std::rt::Env;

// The system's numbers for a word that is missing, and for one that is too long.
const MISSING: i32 = 22;

const TOO_LONG: i32 = 36;

// Whether there is a word at a place.
pub fn is_there<R: Env>(rt: &R, place: usize) -> bool {
    match rt.arg(place, &mut []) {
        Err(FillError::NotPresent) => false,
        _ => true,
    }
}

// The word at a place, at the start of `word`: how many bytes it has. Where it cannot be had it is said of `what`.
pub fn word_at<R: Env>(rt: &R, place: usize, what: &[u8], word: &mut [u8]) -> Option<usize>
    ensures { IfSome result (λ n. n ≤ length word.new) }
{
    match rt.arg(place, word) {
        Ok(n) => Some(n),
        Err(FillError::NotPresent) => {
            fail(what, &Error::from_raw_os_error(MISSING));
            None
        }
        Err(FillError::TooLong) => {
            fail(what, &Error::from_raw_os_error(TOO_LONG));
            None
        }
    }
}

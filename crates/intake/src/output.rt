// THE OTHER EDGE: bytes go out by `Target::write` of `ends`, which this room calls here alone. A report goes out whole, and is that of what came in; what is said of lines goes out piece by piece,
// and nothing outside this file can make an `Output`, so no other code can say that bytes were handed over.
ghost use Rattle.std.specs.Prelude.{◌≡◌, true, false, length};
ghost use Rattle.intake.specs.Day.{Reports};
ghost use Rattle.intake.specs.Desk.{Next, Handed};

use crate::ends::Target;
use crate::failure::fail;
use crate::input::Input;
use crate::{Reported, STANDARD_OUTPUT};
use checks::Asked;

// The report of what came in, and nothing else.
pub(crate) fn hand_report(reported: Reported, text: &[u8], to: &Target)
    requires { Reports reported text.now }
{
    if let Err(error) = to.write(STANDARD_OUTPUT, text) {
        fail(b"standard output", &error);
    }
}

// How many bytes were handed to standard output, and whether it takes more.
#[derive(Clone, Copy)]
pub struct Output {
    total: usize,
    live: bool,
}

impl Output {
    pub(crate) fn start() -> Output
        ensures { (result.total ≡ 0) × (result.live ≡ true) }
    {
        Output {
            total: 0,
            live: true,
        }
    }

    // A write failed, or more bytes than any output has.
    fn closed(self) -> Output
        ensures { result.live ≡ false }
    {
        Output {
            total: self.total,
            live: false,
        }
    }

    // What is said next of what came in, and nothing else.
    pub(crate) fn hand_over(self, input: Input, asked: Asked, text: &[u8], to: &Target) -> Output
        requires { Next asked input.total self.total text.now }
        ensures { Handed self (length text.now) result }
    {
        if text.len() > usize::MAX - self.total {
            return self.closed();
        }
        if let Err(error) = to.write(STANDARD_OUTPUT, text) {
            fail(b"standard output", &error);
            return self.closed();
        }
        Output {
            total: self.total + text.len(),
            live: true,
        }
    }

    pub(crate) fn is_live(self) -> bool
        ensures { result ≡ self.live }
    {
        self.live
    }
}

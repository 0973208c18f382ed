// THE EDGE where a day file, or its lines, are put: this room calls `Target::write` here alone. Nothing outside this file can make a `Shelf`, so no other code can
// say that bytes were put away.
ghost use Rattle.std.specs.Prelude.{◌≡◌, true, false, length};
ghost use Rattle.keeper.specs.Work.{Piece, PutAway};
ghost use Rattle.keeper.specs.Lists.{LinesPiece};

use intake::ends::Target;
use intake::failure::fail;
use intake::input::Input;

// Where bytes go, by its number, how many were put there, and whether it takes more. The end itself is lent to each call: `Work` and `Pass` are copied from
// block to block, and an end that is borrowed in them would give each, and what the specs say of it, a lifetime for one test that goes.
#[derive(Clone, Copy)]
pub struct Shelf {
    fd: i32,
    total: usize,
    live: bool,
}

impl Shelf {
    pub(crate) fn start(fd: i32) -> Shelf
        ensures { (result.total ≡ 0) × (result.live ≡ true) }
    {
        Shelf {
            fd,
            total: 0,
            live: true,
        }
    }

    // All of the text, or it takes no more: a write failed, which is said, or there are more bytes than any file has.
    fn put(self, name: &[u8], text: &[u8], to: &Target) -> Shelf
        ensures { PutAway self (length text.now) result }
    {
        if text.len() > usize::MAX - self.total {
            return Shelf {
                live: false,
                ..self
            };
        }
        if let Err(error) = to.write(self.fd, text) {
            fail(name, &error);
            return Shelf {
                live: false,
                ..self
            };
        }
        Shelf {
            fd: self.fd,
            total: self.total + text.len(),
            live: true,
        }
    }

    // What comes next of the day file of what came in, and nothing else.
    pub(crate) fn put_day(self, name: &[u8], input: Input, text: &[u8], to: &Target) -> Shelf
        requires { Piece input.total self.total text.now }
        ensures { PutAway self (length text.now) result }
    {
        self.put(name, text, to)
    }

    // What comes next of the lines of a day file, and nothing else.
    pub(crate) fn put_lines(self, name: &[u8], text: &[u8], to: &Target) -> Shelf
        requires { LinesPiece self.total text.now }
        ensures { PutAway self (length text.now) result }
    {
        self.put(name, text, to)
    }

    pub(crate) fn is_live(self) -> bool
        ensures { result ≡ self.live }
    {
        self.live
    }
}

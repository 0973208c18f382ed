// THE EDGE: bytes come in by `Source::read` of `ends`, which is called here alone. The kit's contract of a read says how many bytes came, and not which:
// that they are the first of the block is its word, and these few lines and those of `ends` are what is left to the eye. Nothing outside this file can make an
// `Input`, so no other code can say that bytes came, or that there are no more.
ghost use Rattle.std.specs.Prelude.{◌≡◌, true, false, cond, eqb, length};
ghost use Rattle.intake.specs.Edge.{Came};
ghost use Rattle.intake.specs.Ends.{source_fd};

use crate::ends::Source;
use crate::failure::fail;

// Where bytes come from, by its number, how many have come, whether more may come, and whether a read failed. The end itself is lent to each read: `Day` and `Work` are copied from block to block, and an end
// that is borrowed in them would give each, and what the specs say of it, a lifetime for one test that goes.
#[derive(Clone, Copy)]
pub struct Input {
    fd: i32,
    total: usize,
    live: bool,
    failed: bool,
}

impl Input {
    // What the descriptor gives, from the first read on.
    pub fn start(fd: i32) -> Input
        ensures { (result.total ≡ 0) × (result.live ≡ true) × (result.failed ≡ false) × (result.fd ≡ fd) }
    {
        Input {
            fd,
            total: 0,
            live: true,
            failed: false,
        }
    }

    // No more comes: the end, a read that failed, or a number of bytes that no feed has.
    fn closed(self, failed: bool) -> Input
        ensures { (result.total ≡ self.total) × (result.live ≡ false) × (result.failed ≡ failed) × (result.fd ≡ self.fd) }
    {
        Input {
            fd: self.fd,
            total: self.total,
            live: false,
            failed,
        }
    }

    // One read of the descriptor, which the source has open: how many bytes stand at the start of the block then is by how much the total has grown. A read that fails says so.
    pub fn next(self, name: &[u8], block: &mut [u8], source: &Source) -> Input
        ensures came { Came self (length block.new) result }
        ensures own { result.live ≡ true → source_fd source.now ≡ self.fd }
    {
        if block.len() > usize::MAX - self.total {
            return self.closed(false);
        }
        let n = match source.read(self.fd, block) {
            Ok(n) => n,
            Err(error) => {
                fail(name, &error);
                return self.closed(true);
            }
        };
        if n == 0 {
            return self.closed(false);
        }
        Input {
            fd: self.fd,
            total: self.total + n,
            live: true,
            failed: false,
        }
    }

    pub fn total(self) -> usize
        ensures { result ≡ self.total }
    {
        self.total
    }

    pub fn is_live(self) -> bool
        ensures { result ≡ self.live }
    {
        self.live
    }

    // Whether a read failed before a byte came: then there is nothing to tell of.
    pub fn is_barren(self) -> bool
        ensures { result ≡ cond self.failed (eqb self.total 0) false }
    {
        if !self.failed {
            return false;
        }
        self.total == 0
    }
}

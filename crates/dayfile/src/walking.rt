// Lines walked beside their offsets: of a whole file, of a window of one, or of what is being kept.
ghost use Rattle.std.specs.Prelude.{◌≡◌, ◌+◌, ◌*◌, ◌≤◌, ◌<◌, ◌^◌, ℕ, List, min, length};
ghost use Rattle.dayfile.specs.Opening.{offsets_in};
ghost use Rattle.dayfile.specs.Walk.{line_size, Tells, Walks};
ghost use Rattle.dayfile.specs.Windows.{Wide, Sweeps};

use crate::Contents;
use crate::numbers::read_number;
use rules::{LINE_FEED, LONGEST_LINE};
use shapes::sweeps::find_far;

// How many lines were walked, and how many bytes they have.
#[derive(Clone, Copy)]
pub struct Walked {
    pub lines: usize,
    pub used: usize,
}

// The smaller of two numbers.
pub fn least(a: usize, b: usize) -> usize
    ensures { result ≡ min a b }
{
    a.min(b)
}

// How many bytes the line at the start of s has, its line feed with it; 0 where no line of at most 2,048 bytes ends there. No byte further on is looked at.
pub(crate) fn line_size(s: &[u8]) -> usize
    ensures { result ≡ line_size s.now }
{
    let most = least(s.len(), LONGEST_LINE + 1);
    let n = find_far(LINE_FEED, &s[..most]);
    if n == most {
        return 0;
    }
    n + 1
}

// The lines at the start of s, the first at the place `from` of the file, beside `many` offsets: `offset_at` gives the one at an index.
fn walk_beside<F: Fn(usize) -> usize>(from: usize, s: &[u8], many: usize, offset_at: F) -> Walked
    requires room { from + length s.now < 2 ^ 63 }
    requires may_ask { (k : ℕ) → k < many → F.pre offset_at k }
    ensures { (offsets : List ℕ) → length offsets ≡ many → Tells (F.post offset_at) offsets → Walks from s.now offsets result }
{
    let mut used: usize = 0;
    for lines in 0..many {
        if offset_at(lines) != from + used {
            return Walked { lines, used };
        }
        let n = line_size(&s[used..]);
        if n == 0 {
            return Walked { lines, used };
        }
        used += n;
    }
    Walked { lines: many, used }
}

// The same beside an index of four bytes each.
pub fn walk(from: usize, s: &[u8], index: &[u8]) -> Walked
    requires { from + length s.now < 2 ^ 63 }
    ensures { Walks from s.now (offsets_in index.now) result }
{
    walk_beside(
        from,
        s,
        index.len() / 4,
        |k| read_number(&index[4 * k..4 * k + 4]),
    )
}

// The same beside a run of offsets.
pub(crate) fn walk_run(s: &[u8], offsets: &[u32]) -> Walked
    ensures { Walks 0 s.now offsets.now result }
{
    walk_beside(0, s, offsets.len(), |k| offsets[k] as usize)
}

// How far a file has been judged by its windows: the place after so many lines.
#[derive(Clone, Copy)]
pub struct Sweep {
    pub at: usize,
    pub lines: usize,
}

// A window of the lines and one of the index, from where the sweep stands.
pub fn sweep_on(day: Contents, sweep: Sweep, s: &[u8], index: &[u8]) -> Sweep
    requires { Wide day sweep s.now index.now }
    ensures { Sweeps day sweep s.now index.now result }
{
    let walked = walk(sweep.at, s, index);
    Sweep {
        at: sweep.at + walked.used,
        lines: sweep.lines + walked.lines,
    }
}

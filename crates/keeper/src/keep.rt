// The lines of a part of a feed, kept one by one: each is cut from it, and kept where it fits; an overlong one is left out, and that is said.
ghost use Rattle.std.specs.Prelude.{◌≡◌, ◌+◌, ◌-◌, ◌≤◌, ◌<◌, ◌^◌, eqb, length};
ghost use Rattle.cutter.specs.Calls.{cut_number};
ghost use Rattle.cutter.specs.Cases.{told_by};
ghost use Rattle.keeper.specs.Keep.{counted_line, TakesUp, Roomy, GoesOn, Steps};

use cutter::{Begun, CutAnswer, cut, line};
use dayfile::{MOST_LINES, NotKept, Place, keep_from};
use intake::STANDARD_ERROR;

// What is kept from block to block: the cutter's state, how many lines were looked at, how far the file is, and whether a line did not fit.
#[derive(Clone, Copy)]
pub struct Keep {
    pub begun: Begun,
    pub lines: usize,
    pub place: Place,
    pub full: bool,
}

// How far a step came: what is kept, how many bytes it used, and whether it left an overlong line out.
#[derive(Clone, Copy)]
pub struct Turn {
    pub keep: Keep,
    pub used: usize,
    pub long: bool,
}

// One whole line more, by what was answered; where it does not fit, the file is full.
fn count_line(keep: Keep, kept: Result<Place, NotKept>) -> Keep
    requires { keep.lines + 1 < 2 ^ 64 }
    ensures { result ≡ counted_line kept keep }
{
    let begun = keep.begun;
    let place = keep.place;
    match kept {
        Ok(next) => Keep {
            begun,
            lines: keep.lines + 1,
            place: next,
            full: false,
        },
        Err(_) => Keep {
            begun,
            lines: keep.lines + 1,
            place,
            full: true,
        },
    }
}

// The line that a cut told of, if it did: a whole one is kept, an overlong one is looked at and left out.
fn take_up(
    keep: Keep,
    base: usize,
    answer: CutAnswer,
    line: &[u8],
    out: &mut [u8],
    offsets: &mut [u32],
) -> Keep
    requires lines_bound { keep.lines + 1 < 2 ^ 64 }
    requires base_le_at { base ≤ keep.place.at }
    ensures { TakesUp base (told_by answer line.now) out.old offsets.old keep out.new offsets.new result }
{
    let begun = keep.begun;
    let place = keep.place;
    match answer {
        CutAnswer::InBuffer(_) | CutAnswer::InPart(_) => {
            let kept = keep_from(MOST_LINES, base, line, out, offsets, place);
            count_line(keep, kept)
        }
        CutAnswer::TooLong => Keep {
            begun,
            lines: keep.lines + 1,
            place,
            full: false,
        },
        _ => keep,
    }
}

// Whether a cut told of an overlong line, its answer being 2.
fn is_long(answer: CutAnswer) -> bool
    ensures { result ≡ eqb (cut_number answer) 2 }
{
    match answer {
        CutAnswer::TooLong => true,
        _ => false,
    }
}

// One line of what is left of the part, or all of it where no line ends there.
fn step(
    held: &mut [u8],
    keep: Keep,
    base: usize,
    rest: &[u8],
    out: &mut [u8],
    offsets: &mut [u32],
) -> Turn
    requires roomy { Roomy base held.old rest.now out.old offsets.old keep }
    requires rest_nonzero { 0 < length rest.now }
    ensures { Steps base held.old rest.now out.old offsets.old keep held.new out.new offsets.new result }
{
    let begun = keep.begun;
    let place = keep.place;
    let done = cut(held, begun, rest);
    let answer = done.answer;
    let begun = done.begun;
    let keep = Keep {
        begun,
        lines: keep.lines,
        place,
        full: false,
    };
    let line = line(answer, &held[..], rest);
    let keep = take_up(keep, base, answer, line, out, offsets);
    Turn {
        keep,
        used: done.used,
        long: is_long(answer),
    }
}

// A word about a line of the feed, on standard error.
pub(crate) fn tell(line: usize, word: &[u8]) {
    io::write_all(STANDARD_ERROR, b"standard input: line ");
    io::print_decimal(STANDARD_ERROR, line as u64);
    io::write_all(STANDARD_ERROR, word);
}

// What is not kept is said as it comes.
fn tell_turn(turn: Turn) {
    let keep = turn.keep;
    if turn.long {
        tell(
            keep.lines,
            b" is over 2,048 bytes and is not kept (answer 2)\n",
        );
    }
    if keep.full {
        tell(
            keep.lines,
            b" does not fit the day file, which is ended before it (answer 24)\n",
        );
    }
}

// The lines of a part, kept from the start of out on, until one does not fit.
pub(crate) fn keep_part(
    held: &mut [u8],
    keep: Keep,
    part: &[u8],
    out: &mut [u8],
    offsets: &mut [u32],
) -> Keep
    requires { Roomy keep.place.at held.old part.now out.old offsets.old keep }
    ensures goes_on { GoesOn keep.place.at held.old out.old offsets.old keep part.now held.new out.new offsets.new result }
    ensures at_le_at { (keep.place.at ≤ result.place.at) × (result.place.at - keep.place.at ≤ length out.new) }
{
    let place = keep.place;
    let base = place.at;
    let mut now = keep;
    let mut used: usize = 0;
    // how far a turn comes its line decides, so it is a `while`
    while used < part.len() {
        let turn = step(held, now, base, &part[used..], out, offsets);
        tell_turn(turn);
        now = turn.keep;
        if now.full {
            return now;
        }
        used += turn.used;
    }
    now
}

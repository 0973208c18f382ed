// The calls on a board, any words, and the age of a stamp, any number.
use crate::cuts::say_begun;
use crate::lines::say_written;
use crate::numbers::{low_half, say_bytes, say_three, say_two, say_words};
use cutter::Begun;
use feeding::NotFed;
use fields::frame::Stamp;
use meanings::ages;
use meanings::ages::Aged;
use planner::{NotStruck, NotTaken};
use printer::NotPrinted;

// Number, place, the board.
pub(crate) fn apply(board: &mut [u64], line: &[u8]) {
    match planner::apply(board, line) {
        Ok(()) => say_two(0, 0),
        Err(NotTaken::Line(refusal)) => say_two(refusal.number() as u64, refusal.place() as u64),
        Err(NotTaken::NotAllowed) => say_two(13, 0),
        Err(NotTaken::Full) => say_two(12, 0),
    }
    say_words(board);
}

// Number, place, the board.
pub(crate) fn strike(board: &mut [u64], key: &[u8]) {
    match planner::strike(board, key) {
        Ok(()) => say_two(0, 0),
        Err(NotStruck::NoKey) => say_two(9, 1),
        Err(NotStruck::NotAllowed) => say_two(13, 0),
        Err(NotStruck::NotListed) => say_two(14, 0),
    }
    say_words(board);
}

// Number, the place after the text, the buffer.
pub(crate) fn print(board: &[u64], out: &mut [u8], at: usize) {
    match printer::print(board, out, at) {
        Ok(next) => say_two(0, next as u64),
        Err(NotPrinted::NoRoom) => say_two(15, 0),
        Err(NotPrinted::NotAllowed) => say_two(13, 0),
    }
    say_bytes(out);
}

// Number, the place after the text, the buffer.
pub(crate) fn print_counts(lines: u64, taken: u64, out: &mut [u8], at: usize) {
    say_written(printer::print_counts(low_half(lines), low_half(taken), out, at));
    say_bytes(out);
}

fn feed_number(answer: Result<(), NotFed>) -> u64 {
    match answer {
        Ok(()) => 0,
        Err(NotFed) => 13,
    }
}

// Number, bytes used, lines, taken, the cutter's state, the board, the buffer.
pub(crate) fn feed(board: &mut [u64], held: &mut [u8], begun: Begun, most: usize, part: &[u8]) {
    let after = feeding::feed(board, held, begun, most, part);
    say_two(feed_number(after.answer), after.used as u64);
    say_two(after.lines as u64, after.taken as u64);
    say_begun(after.begun);
    say_words(board);
    say_bytes(held);
}

// The number, 1 for ahead and 2 for old, the seconds.
pub(crate) fn age(now: u64, last: u64, stamp: u64) {
    match ages::age(Stamp(now), last, Stamp(stamp)) {
        Some(Aged::Seconds(n)) => say_three(0, 0, n),
        Some(Aged::Ahead) => say_three(0, 1, 0),
        Some(Aged::Old) => say_three(0, 2, 0),
        None => say_three(19, 0, 0),
    }
}

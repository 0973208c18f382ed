// The cutter's calls, on any buffer and any state.
use crate::numbers::{say_bytes, say_number, say_two};
use cutter::{Begun, CutAnswer, EndAnswer};

// A state: so many bytes of the buffer, or, where the mark is 1, that the line is overlong.
pub(crate) fn begun(mark: u64, n: u64) -> Begun {
    match mark {
        1 => Begun::Overlong,
        _ => Begun::Held(n as usize),
    }
}

// The mark, and how many bytes.
pub(crate) fn say_begun(begun: Begun) {
    match begun {
        Begun::Held(n) => say_two(0, n as u64),
        Begun::Overlong => say_two(1, 0),
    }
}

// The number, and where a line that ended lies: 1 for the buffer, 2 for the part.
fn say_answer(answer: CutAnswer) {
    match answer {
        CutAnswer::Taken => say_two(0, 0),
        CutAnswer::InBuffer(_) => say_two(0, 1),
        CutAnswer::InPart(_) => say_two(0, 2),
        CutAnswer::TooLong => say_two(2, 0),
        CutAnswer::NotAllowed => say_two(13, 0),
    }
}

// Number, where the line lies, bytes used, the state, the line, the buffer.
pub(crate) fn cut(held: &mut [u8], begun: Begun, part: &[u8]) {
    let after = cutter::cut(held, begun, part);
    say_answer(after.answer);
    say_number(after.used as u64);
    say_begun(after.begun);
    say_bytes(cutter::line(after.answer, held, part));
    say_bytes(held);
}

fn end_number(answer: EndAnswer) -> u64 {
    match answer {
        EndAnswer::AtStart => 0,
        EndAnswer::InsideLine => 17,
        EndAnswer::NotAllowed => 13,
    }
}

// Number, the state, the buffer.
pub(crate) fn end(held: &[u8], begun: Begun) {
    let after = cutter::end(held, begun);
    say_number(end_number(after.answer));
    say_begun(after.begun);
    say_bytes(held);
}

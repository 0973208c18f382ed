// The calls themselves, on what no feed can bring: any words as a board, any state of the cutter, any values to write, any bytes as a day
// file. Each case of standard input names a call and has what it takes; its answer is written to standard output, with all that the call
// could change.
#![tactic(auto)]

mod boards;
mod cuts;
mod days;
mod lines;
mod numbers;

use numbers::unpack;

// The descriptor of standard input.
const STANDARD_INPUT: i32 = 0;

// The call, how many words it takes and how many of these come (the others are 0), how many bytes come in each of two runs, and
// three numbers.
#[derive(Clone, Copy)]
struct Asked {
    call: u64,
    words: usize,
    given: usize,
    first: usize,
    second: usize,
    a: u64,
    b: u64,
    c: u64,
}

fn from_numbers(n: [u64; 8]) -> Asked {
    let [call, words, given, first, second, a, b, c] = n;
    Asked {
        call,
        words: words as usize,
        given: given as usize,
        first: first as usize,
        second: second as usize,
        a,
        b,
        c,
    }
}

fn read_words(given: usize, words: &mut [u64]) {
    // no heap: a fixed room
    let mut room = [0u8; 32768];
    if given > 4096 {
        return;
    }
    let bytes = &mut room[..given * 8];
    io::read_full(STANDARD_INPUT, bytes);
    unpack(bytes, words);
}

// The call by its number. The numbers come from outside, and an arm says what each is: an enum between would name each call twice more.
fn call(asked: Asked, words: &mut [u64], first: &mut [u8], second: &mut [u8]) {
    let Asked { call, a, b, c, .. } = asked;
    match call {
        0 => boards::apply(words, first),
        1 => boards::strike(words, first),
        2 => boards::print(words, first, a as usize),
        3 => cuts::cut(first, cuts::begun(a, b), second),
        4 => cuts::end(first, cuts::begun(a, b)),
        5 => boards::feed(words, first, cuts::begun(a, b), c as usize, second),
        6 => boards::age(a, b, c),
        7 => boards::print_counts(a, b, first, c as usize),
        8 => lines::write(words, first, second, a as usize),
        9 => days::open(first),
        10 => days::line(first, a as usize),
        11 => days::keep_line(second, first, words, a as usize, b as usize),
        12 => days::end_file(first, words, a as usize, b as usize),
        13 => days::end_many(a as usize, b as usize, c as usize),
        14 => lines::write_old(words, first, second, a as usize),
        _ => {}
    }
}

// A case that is larger than these rooms is none.
fn turn(asked: Asked) {
    // no heap: fixed rooms
    let mut words = [0u64; 4096];
    let mut first = [0u8; 32768];
    let mut second = [0u8; 32768];
    let Some(words) = words.get_mut(..asked.words) else {
        return;
    };
    let Some(first) = first.get_mut(..asked.first) else {
        return;
    };
    let Some(second) = second.get_mut(..asked.second) else {
        return;
    };
    read_words(asked.given, words);
    io::read_full(STANDARD_INPUT, first);
    io::read_full(STANDARD_INPUT, second);
    call(asked, words, first, second);
}

// Whether there was one more.
fn read_case() -> bool {
    // no heap: fixed rooms
    let mut head = [0u8; 64];
    if io::read_full(STANDARD_INPUT, &mut head) < 64 {
        return false;
    }
    let mut numbers = [0u64; 8];
    unpack(&head, &mut numbers);
    turn(from_numbers(numbers));
    true
}

fn main() {
    for _ in 0..u64::MAX {
        if !read_case() {
            return;
        }
    }
}

// The known readings of document 01 and the sample lines of sources 003 and 000: of each line its answer number and place, and of one
// that reads its type, its flight's key if it has one, whether writing what was read gives the same bytes, and the values of its fields.
// With the word --old the lines are those of the old feed.
#![tactic(auto)]

use check::same;
use line::{Refusal, free, read, read_old};
use messages::values::values_in;
use messages::{Body, marks_in, type_in};
use rules::{LONGEST_LINE, Rule};
use std::rt::Env;
use table::kinds::{AMENDMENT, Value};
use table::{field_count, kinds_of};
use text::{NotWritten, writing};
use writer::{write, write_old};

// The descriptors that every program has.
const STANDARD_INPUT: i32 = 0;

const STANDARD_OUTPUT: i32 = 1;

fn say(bytes: &[u8]) {
    io::write_all(STANDARD_OUTPUT, bytes);
}

// The answer number and the place, and what comes after them.
fn answer(number: u64, place: usize, after: &[u8]) {
    io::print_decimal(STANDARD_OUTPUT, number);
    say(b" ");
    io::print_decimal(STANDARD_OUTPUT, place as u64);
    say(after);
}

fn refuse(refusal: Refusal) {
    answer(refusal.number() as u64, refusal.place(), b"\n");
}

// A part of a value after a space or a comma: its text, or a hyphen where there is none.
fn say_part(before: u8, part: u64) {
    if part == 0 {
        return say(&[before, b'-']);
    }
    // no heap: the text lies at the start of a fixed room
    let mut room = [before; 13];
    let Ok(n) = writing::put(part, &mut room, 1) else {
        return;
    };
    say(&room[..n]);
}

// The key of the flight, after a space, where there is one.
fn say_key(key: u64) {
    if key != 0 {
        say_part(b' ', key);
    }
}

// The value of a field of this kind, as its three parts; an amendment's number is kept as its mark, and shown as that.
fn say_value(kind: u8, v: Value) {
    if kind == AMENDMENT {
        say(b" #");
        io::print_decimal(STANDARD_OUTPUT, v.a);
    } else {
        say_part(b' ', v.a);
    }
    say_part(b',', v.b);
    say_part(b',', v.c);
}

// The values of the first `count` fields.
fn say_values(kinds: [u8; 19], values: [Value; 19], count: usize) {
    for (&kind, &value) in kinds.iter().zip(values.iter()).take(count) {
        say_value(kind, value);
    }
}

// Whether writing what was read, with the text after the fields, gives the bytes of the line.
fn writes_back<F: FnOnce(&[u8], &mut [u8]) -> Result<usize, NotWritten>>(
    rule: Rule,
    line: &[u8],
    write: F,
) -> bool
    requires { F.IsAlwaysCallable write }
{
    // no heap: the line lies at the start of a fixed room
    let mut room = [0u8; LONGEST_LINE];
    let Ok(n) = write(free(rule, line), &mut room) else {
        return false;
    };
    room.get(..n).is_some_and(|written| same(written, line))
}

fn show(rule: Rule, body: Body, as_it_was: bool) {
    let kind = type_in(body);
    // no heap: a fixed room
    let mut letters = [0u8; 2];
    answer(0, 0, b" ");
    let _ = kind.put(&mut letters, 0);
    say(&letters);
    let values = values_in(body);
    say_key(values[0].a);
    if as_it_was {
        say(b" same");
    } else {
        say(b" differs");
    }
    say_values(
        kinds_of(rule, kind),
        values,
        field_count(kind, marks_in(body)),
    );
    say(b"\n");
}

fn show_line(rule: Rule, line: &[u8]) {
    match rule {
        Rule::New => match read(line) {
            Ok(m) => {
                let same = writes_back(rule, line, |free, room| write(m, free, room, 0));
                show(rule, m.body, same);
            }
            Err(refusal) => refuse(refusal),
        },
        Rule::Old => match read_old(line) {
            Ok(m) => {
                let same = writes_back(rule, line, |free, room| write_old(m, free, room, 0));
                show(rule, m.body, same);
            }
            Err(refusal) => refuse(refusal),
        },
    }
}

// Each line that a line feed ends.
fn show_all(rule: Rule, feed: &[u8]) {
    for piece in feed.split_inclusive(|byte| *byte == b'\n') {
        if let [line @ .., b'\n'] = piece {
            show_line(rule, line);
        }
    }
}

// Whether the word --old was given.
fn is_old<R: Env>(rt: &R) -> bool {
    // no heap: the word lies at the start of a fixed room
    let mut word = io::buffer();
    match rt.arg(1, &mut word) {
        Ok(n) => same(&word[..n], b"--old"),
        Err(_) => false,
    }
}

fn main(rt: HostRuntime) {
    // no heap: the feed lies at the start of a fixed room
    let mut feed = [0u8; 131072];
    let n = io::read_full(STANDARD_INPUT, &mut feed);
    let rule = if is_old(&rt) { Rule::Old } else { Rule::New };
    show_all(rule, &feed[..n]);
}

// The board printer: reads a feed, from standard input or from the file that is named, and prints the board.
#![tactic(auto)]

use check::same;
use intake::arguments::{is_there, word_at};
use intake::ends::{Source, Target};
use intake::files::open;
use intake::words::{is_help, is_option};
use intake::{STANDARD_OUTPUT, say};

const HELP: [u8; 739] =
    *b"flights: prints the flight board of a feed\n\n  flights           reads standard input; so does 'flights -'\n  flights FILE      reads the file\n\nNothing is printed before the feed ends. The first line says how many FLIGHTS are\nlisted. Each has a line, in the order of its key: key, departure, destination and\nclock of the latest departure or arrival, then stamp, speed, level and position of\nthe latest track; a hyphen for each part of what there is none of. The last line\nsays how many LINES were read, and how many of them were TAKEN; 'desk check' says\nwhy a line was not read.\n\nWhat went wrong is said on standard error: a file that cannot be read, a last line\nwithout a line feed, which is no line. There is no exit status that tells it.\n";

fn print_help() {
    io::write_all(STANDARD_OUTPUT, &HELP);
}

fn print_standard_input(rt: &HostRuntime) {
    intake::run(
        &Source::Standard(rt.stdin()),
        b"standard input",
        &Target::Standard(rt.stdout()),
    );
}

// The board of the feed in the file that is named.
fn print_file(rt: &HostRuntime, name: &[u8]) {
    if let Some(file) = open(rt, name) {
        intake::run(&Source::Named(file), name, &Target::Standard(rt.stdout()));
    }
}

// A single word: help, standard input, or the name of a file.
fn take(rt: &HostRuntime, word: &[u8]) {
    if is_help(word) {
        return print_help();
    }
    if same(word, b"-") {
        return print_standard_input(rt);
    }
    if is_option(word) {
        return say(
            word,
            b"no such option; 'flights --help' names what there is",
        );
    }
    print_file(rt, word);
}

fn main(rt: HostRuntime) {
    if !is_there(&rt, 1) {
        return print_standard_input(&rt);
    }
    if is_there(&rt, 2) {
        return say(b"flights", b"it reads one feed; 'flights --help' says how");
    }
    // no heap: the word lies at the start of a fixed room
    let mut word = io::buffer();
    if let Some(n) = word_at(&rt, 1, b"the name of the file", &mut word) {
        take(&rt, &word[..n]);
    }
}

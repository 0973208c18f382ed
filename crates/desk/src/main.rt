// The desks' program: a word for each job.
#![tactic(auto)]

use check::same;
use checks::Asked;
use intake::arguments::{is_there, word_at};
use intake::ends::{Source, Target};
use intake::files::open;
use intake::words::{is_help, is_option, option};
use intake::{STANDARD_OUTPUT, say};
use rules::Rule;

const HELP: [u8; 397] =
    *b"desk: what the desks ask of a feed\n\n  desk check [--old] [--refused] [FILE]    each line of the feed with its answer\n  desk keep FILE                           the feed kept as a day file\n  desk lines FILE                          the lines of a day file\n\n'desk check --help' says more of it, and so for each word. What went wrong is said on\nstandard error; there is no exit status that tells it.\n";

const CHECK_HELP: [u8; 862] =
    *b"desk check: why was this line refused?\n\n  desk check            reads standard input; so does 'desk check -'\n  desk check FILE       reads the file\n  desk check --refused [FILE]    leaves out the lines that are read\n  desk check --old [FILE]        reads lines of the feed that ended in 1999\n\nBoth options may be given, each once and in either order.\n\nEach line of the feed gets a line: NUMBER ANSWER PLACE TYPE KEY. NUMBER counts from 1.\nANSWER is 0 for a line that is read, else the number that says why not, and PLACE the\nfield at fault, 1 for the ident, or 0. TYPE and KEY are those of a line that is read, a\nhyphen where there is none. 2 is an overlong line, 17 a last line without a line feed.\nThe sums go to standard error: how many LINES, how many READ, how many REFUSED. No board\nis there, so a line that would find the board full is read all the same.\n";

const KEEP_HELP: [u8; 613] =
    *b"desk keep: what came in, kept until the morning\n\n  desk keep FILE        reads the feed from standard input and makes the day file FILE\n\nA line is kept as it came, whether it reads or not. Two are not, and are said on standard\nerror with their number: a line over 2,048 bytes (answer 2), and a last line without a\nline feed (answer 17). A day file holds 65,535 lines; with the next one it is ended, and\nthe feed is read no further (answer 24). Until the file is whole it is called FILE.part;\na FILE that is there already stays as it is. The sums go to standard error: how many lines\nwere KEPT, how many NOT KEPT.\n";

const LINES_HELP: [u8; 239] =
    *b"desk lines: the lines of a day file\n\n  desk lines FILE       writes them to standard output\n\nSo 'desk lines FILE | flights' is the board of that day. A file that is no day file is\nrefused with its answer, 20 to 23, and nothing is written.\n";

fn print_help(text: &[u8]) {
    io::write_all(STANDARD_OUTPUT, text);
}

// The checks of the feed in the file that is named; of standard input where that is a hyphen.
fn check_named(rt: &HostRuntime, name: &[u8], asked: Asked) {
    let to = Target::Standard(rt.stdout());
    if same(name, b"-") {
        let source = Source::Standard(rt.stdin());
        return intake::checking::run(&source, b"standard input", asked, &to);
    }
    if let Some(file) = open(rt, name) {
        intake::checking::run(&Source::Named(file), name, asked, &to);
    }
}

// The first word after 'check' that asks for nothing more: help, or the feed, which is the last word.
fn check_word(rt: &HostRuntime, word: &[u8], last: bool, asked: Asked) {
    if is_help(word) {
        return print_help(&CHECK_HELP);
    }
    if is_option(word) && !same(word, b"-") {
        return say(
            word,
            b"no such option, or given twice; 'desk check --help' names what there is",
        );
    }
    if !last {
        return say(
            b"desk check",
            b"it reads one feed; 'desk check --help' says how",
        );
    }
    check_named(rt, word, asked);
}

// The word at a place after 'check': what is asked for with it, or nothing where it was the last to be looked at.
fn take_word(rt: &HostRuntime, asked: Asked, place: usize, last: bool) -> Option<Asked> {
    // no heap: the word lies at the start of a fixed room
    let mut word = io::buffer();
    let n = word_at(rt, place, b"a word after check", &mut word)?;
    match option(asked, &word[..n]) {
        Some(more) => Some(more),
        None => {
            check_word(rt, &word[..n], last, asked);
            None
        }
    }
}

// The words after 'check': its options, then the feed.
fn check(rt: &HostRuntime) {
    let mut asked = Asked {
        rule: Rule::New,
        refused: false,
    };
    // tried with take_while: the proof that place + 1 fits did not close
    for place in 2..usize::MAX {
        if !is_there(rt, place) {
            break;
        }
        let Some(more) = take_word(rt, asked, place, !is_there(rt, place + 1)) else {
            return;
        };
        asked = more;
    }
    check_named(rt, b"-", asked);
}

// A word that takes the name of one file: its help, what it says of an option, and its work on the file.
fn one_file<F: FnOnce(&[u8])>(rt: &HostRuntime, word: &[u8], help: &[u8], no_option: &[u8], work: F)
    requires { F.IsAlwaysCallable work }
{
    if !is_there(rt, 2) || is_there(rt, 3) {
        return say(
            word,
            b"it takes the name of one file; with --help it says more",
        );
    }
    // no heap: the name lies at the start of a fixed room
    let mut room = io::buffer();
    let Some(n) = word_at(rt, 2, b"the name of the file", &mut room) else {
        return;
    };
    let name = &room[..n];
    if is_help(name) {
        return print_help(help);
    }
    if is_option(name) {
        return say(name, no_option);
    }
    work(name);
}

// Its rooms are large: the other words run without them.
#[inline(never)]
fn keep(rt: &HostRuntime) {
    one_file(
        rt,
        b"desk keep",
        &KEEP_HELP,
        b"no such option; 'desk keep --help' says how",
        |name| keeper::store::run(rt, &Source::Standard(rt.stdin()), name),
    );
}

fn lines(rt: &HostRuntime) {
    one_file(
        rt,
        b"desk lines",
        &LINES_HELP,
        b"no such option; 'desk lines --help' says how",
        |name| keeper::lists::run(rt, name, &Target::Standard(rt.stdout())),
    );
}

fn job(rt: &HostRuntime, word: &[u8]) {
    match word {
        b"check" => check(rt),
        b"keep" => keep(rt),
        b"lines" => lines(rt),
        _ if is_help(word) => print_help(&HELP),
        _ => say(word, b"no such word; 'desk --help' names what there is"),
    }
}

fn main(rt: HostRuntime) {
    if !is_there(&rt, 1) {
        return say(
            b"desk",
            b"a word is missing; 'desk --help' names what there is",
        );
    }
    // no heap: the word lies at the start of a fixed room
    let mut word = io::buffer();
    if let Some(n) = word_at(&rt, 1, b"the word", &mut word) {
        job(&rt, &word[..n]);
    }
}

// The board printer's work: a feed read to its end in large blocks, and its report. Memory is fixed, whatever the feed.

#![tactic(auto)]

pub mod arguments;
pub mod checking;
pub mod ends;
pub mod failure;
pub mod files;
pub mod input;
pub mod output;
pub mod words;

ghost use Rattle.std.specs.Prelude.{◌≡◌, ◌≤◌, length, take};
ghost use Rattle.io.specs.Counts.{IsPrefixLen};
ghost use Rattle.text.specs.Text.{spliced};
ghost use Rattle.intake.specs.Day.{Kept, TakesIn, Reads, is_more, ReadWhole, Led, Fills, AtStart, is_torn, Reports};

use crate::ends::{Source, Target};
use crate::input::Input;
use crate::output::hand_report;
use board::WORDS_OF_A_BOARD;
use cutter::{Begun, EndAnswer};
use feeding::feed_allowed;
use printer::{print, print_counts};
use rules::LONGEST_LINE;

// The descriptors that every program has to write to.
pub const STANDARD_OUTPUT: i32 = 1;

pub const STANDARD_ERROR: i32 = 2;

// "It stops reading after 4,294,967,295 lines."
const MOST_LINES: usize = 4294967295;

// No report is longer.
pub const LONGEST_REPORT: usize = 18300;

// What is kept from block to block: where bytes come from, the cutter's state, and the counts.
#[derive(Clone, Copy)]
pub struct Day {
    pub input: Input,
    pub begun: Begun,
    pub lines: usize,
    pub taken: usize,
}

// Of a feed that was read: what was kept last, how many bytes its report has, and whether it ended inside a line (17).
#[derive(Clone, Copy)]
pub struct Reported {
    pub day: Day,
    pub size: usize,
    pub torn: bool,
}

// Whether there may be more to read.
fn is_more(day: Day) -> bool
    ensures { result ≡ is_more day }
{
    day.input.is_live() && day.lines < MOST_LINES
}

// A block of the feed, taken in as a whole.
fn take_in(board: &mut [u64], held: &mut [u8], day: Day, input: Input, block: &[u8]) -> Day
    requires { Kept board.old held.old day }
    ensures { (result.input ≡ input) × TakesIn board.old held.old day block.now board.new held.new result }
{
    let fed = feed_allowed(board, held, day.begun, MOST_LINES - day.lines, block);
    Day {
        input,
        begun: fed.begun,
        lines: day.lines + fed.lines,
        taken: day.taken + fed.taken,
    }
}

// One read, and what came taken in.
fn read_block(
    name: &[u8],
    block: &mut [u8],
    board: &mut [u64],
    held: &mut [u8],
    day: Day,
    source: &Source,
) -> Day
    requires { Kept board.old held.old day }
    ensures { Reads board.old held.old day block.new board.new held.new result }
{
    let input = day.input.next(name, block, source);
    let n = input.total() - day.input.total();
    take_in(board, held, day, input, &block[..n])
}

// Reads until no more comes.
fn read_all(
    source: &Source,
    name: &[u8],
    block: &mut [u8],
    board: &mut [u64],
    held: &mut [u8],
) -> Day
    requires { AtStart board.old held.old }
    ensures { ReadWhole board.new held.new result }
{
    let mut day = Day {
        input: Input::start(source.number()),
        begun: Begun::Held(0),
        lines: 0,
        taken: 0,
    };
    // how often it turns, what comes decides
    while is_more(day) {
        day = read_block(name, block, board, held, day, source);
    }
    day
}

// The report at the start of out, of a board and counts to which a feed has led: how many bytes it has.
fn fill(board: &[u64], day: Day, out: &mut [u8; LONGEST_REPORT]) -> usize
    requires { Led board.now day }
    ensures upper_bound { result ≤ length out.new }
    ensures fills { Fills board.now day out.old result out.new }
{
    let Ok(n) = print(board, out, 0) else {
        return 0;
    };
    let Ok(m) = print_counts(day.lines as u32, day.taken as u32, out, n) else {
        return 0;
    };
    m
}

// Whether the feed ended inside a line, which is no line: answer 17.
pub fn is_torn(held: &[u8], begun: Begun) -> bool
    ensures { result ≡ is_torn held.now begun }
{
    match cutter::end(held, begun).answer {
        EndAnswer::InsideLine => true,
        EndAnswer::AtStart => false,
        EndAnswer::NotAllowed => false,
    }
}

// Reads the feed that the source gives, to its end, to a read that fails or to the last line that is read, and puts its report at the start of out; every
// other byte stays.
pub fn report(source: &Source, name: &[u8], out: &mut [u8; LONGEST_REPORT]) -> Reported
    ensures prefix_len { IsPrefixLen result.size out.new }
    ensures reports { Reports result (take result.size out.new) }
    ensures out_after { out.new ≡ spliced out.old 0 (take result.size out.new) }
{
    // fixed rooms, whatever the feed: nothing is put on the heap
    let mut board = [0u64; WORDS_OF_A_BOARD];
    let mut held = [0u8; LONGEST_LINE];
    let mut block = io::large_buffer();
    let day = read_all(source, name, &mut block, &mut board, &mut held);
    let size = fill(&board, day, out);
    let torn = is_torn(&held, day.begun);
    Reported { day, size, torn }
}

// A word about the feed, on standard error.
pub fn say(name: &[u8], word: &[u8]) {
    io::write_all(STANDARD_ERROR, name);
    io::write_all(STANDARD_ERROR, b": ");
    io::write_all(STANDARD_ERROR, word);
    io::write_all(STANDARD_ERROR, b"\n");
}

// Reads the feed and hands its report to standard output, which the caller brings. Where a read fails before a byte came, there is nothing to report.
pub fn run(source: &Source, name: &[u8], to: &Target) {
    // a fixed room: no report is longer
    let mut out = [0u8; LONGEST_REPORT];
    let reported = report(source, name, &mut out);
    if reported.day.input.is_barren() {
        return;
    }
    if reported.torn {
        say(
            name,
            b"the last line has no line feed, so it is no line (answer 17)",
        );
    }
    hand_report(reported, &out[..reported.size], to);
}

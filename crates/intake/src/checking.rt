// The work of `desk check`: a feed read to its end in blocks, and for each of its lines a line of text. Memory is fixed, whatever the feed, and there
// is no limit on its lines.
ghost use Rattle.std.specs.Prelude.{◌≡◌, true, ◌*◌, ◌≤◌, length};
ghost use Rattle.rules.specs.Frame.{longest_line};
ghost use Rattle.checks.specs.Part.{longest_saying};
ghost use Rattle.intake.specs.Desk.{Kept, Works, is_on, Whole, Done};

use crate::STANDARD_ERROR;
use crate::ends::{Source, Target};
use crate::input::Input;
use crate::output::Output;
use checks::{Asked, LONGEST_SAYING, Sums, check};
use cutter::Begun;
use rules::LONGEST_LINE;

// A line of text for each byte of a block, of which there are 4,096.
const LONGEST_SAID: usize = 4096 * LONGEST_SAYING;

// What is kept from block to block: where bytes come from, what was counted, and how much was handed over.
#[derive(Clone, Copy)]
pub struct Work {
    pub input: Input,
    pub sums: Sums,
    pub output: Output,
}

// Whether bytes may still come, and be handed over.
fn is_on(work: Work) -> bool
    ensures { result ≡ is_on work }
{
    work.input.is_live() && work.output.is_live()
}

// One read, what is said of what came, and that handed over.
fn check_block(
    name: &[u8],
    asked: Asked,
    block: &mut [u8],
    held: &mut [u8],
    out: &mut [u8],
    work: Work,
    source: &Source,
    to: &Target,
) -> Work
    requires kept { Kept asked held.old work }
    requires work_value { is_on work ≡ true }
    requires block_in_bounds { longest_saying * length block.old ≤ length out.old }
    ensures { Works asked work (length block.new) held.new result }
{
    let input = work.input.next(name, block, source);
    let n = input.total() - work.input.total();
    let said = check(held, asked, work.sums, &block[..n], out);
    let output = work.output.hand_over(input, asked, &out[..said.size], to);
    Work {
        input,
        sums: said.sums,
        output,
    }
}

// Reads until no more comes, or what is said is no longer taken.
fn check_all(
    source: &Source,
    name: &[u8],
    asked: Asked,
    block: &mut [u8],
    held: &mut [u8],
    out: &mut [u8],
    to: &Target,
) -> Work
    requires held_len { length held.old ≡ longest_line }
    requires block_in_bounds { longest_saying * length block.old ≤ length out.old }
    ensures { Whole asked held.new result }
{
    let sums = Sums {
        begun: Begun::Held(0),
        lines: 0,
        read: 0,
    };
    let mut work = Work {
        input: Input::start(source.number()),
        sums,
        output: Output::start(),
    };
    // how often it turns, what comes decides
    while is_on(work) {
        work = check_block(name, asked, block, held, out, work, source, to);
    }
    work
}

// The unended rest of a feed that was read whole: a line of text for it, if there is one.
fn finish(asked: Asked, held: &[u8], out: &mut [u8], work: Work, to: &Target) -> Work
    requires whole { Whole asked held.now work }
    requires longest_saying_in_bounds { longest_saying ≤ length out.old }
    ensures { Done asked result }
{
    if !work.output.is_live() {
        return work;
    }
    let size = checks::end(held, work.sums, out);
    let output = work.output.hand_over(work.input, asked, &out[..size], to);
    Work { output, ..work }
}

// Reads the feed that the source gives, to its end or to a read that fails, and hands over what is said of each of its lines.
pub(crate) fn check_feed(source: &Source, name: &[u8], asked: Asked, to: &Target) -> Work
    ensures { Done asked result }
{
    let mut block = io::buffer();
    // fixed rooms, whatever the feed: nothing is put on the heap
    let mut held = [0u8; LONGEST_LINE];
    let mut out = [0u8; LONGEST_SAID];
    let work = check_all(source, name, asked, &mut block, &mut held, &mut out, to);
    finish(asked, &held, &mut out, work, to)
}

// A sum, on standard error.
fn tell(name: &[u8], n: usize, after: &[u8]) {
    io::write_all(STANDARD_ERROR, name);
    io::print_decimal(STANDARD_ERROR, n as u64);
    io::write_all(STANDARD_ERROR, after);
}

// For each line of the feed one line of text on standard output, and the sums on standard error. Where a read fails before a byte came, there is
// nothing to sum up.
pub fn run(source: &Source, name: &[u8], asked: Asked, to: &Target) {
    let work = check_feed(source, name, asked, to);
    if work.input.is_barren() {
        return;
    }
    let sums = work.sums;
    tell(b"LINES ", sums.lines, b" ");
    tell(b"READ ", sums.read, b" ");
    tell(b"REFUSED ", sums.lines - sums.read, b"\n");
}

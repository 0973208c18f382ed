// A pass over the windows of a day file, lines and index side by side: each is judged as it is read, and its lines are put away where the pass writes.
ghost use Rattle.std.specs.Prelude.{◌≡◌, true, ◌+◌, ◌*◌, ◌<◌, length, Ok};
ghost use Rattle.dayfile.specs.Windows.{Wide};
ghost use Rattle.keeper.specs.Lists.{LinesPiece, AfterLines, Puts, ReadFrom, Told, Passing, unread_of, Judges, Turns, goes_on, Passed};

use crate::shelf::Shelf;
use crate::volume::{Filled, Volume};
use dayfile::Contents;
use dayfile::walking::{Sweep, least, sweep_on};
use intake::STANDARD_OUTPUT;
use intake::ends::Target;
use std::fs::File;

// A window of the lines has room for any line; one of the index for so many offsets.
const LINES: usize = 65536;

const INDEX: usize = 8192;

// How far a pass came, where its lines were put, and whether each window could be read. A test and no Option: `Turns` and `Passed` promise how far
// it came, and what it put away, where a window could not be read too.
#[derive(Clone, Copy)]
pub struct Pass {
    pub sweep: Sweep,
    pub shelf: Shelf,
    pub read: bool,
}

// A pass that only judges puts nothing away. (A flag and no closure: the promises of both passes say by it what they put away.)
fn put(writes: bool, shelf: Shelf, text: &[u8], to: &Target) -> Shelf
    requires { writes ≡ true → LinesPiece shelf.total text.now }
    ensures { Puts writes shelf (length text.now) result }
{
    if !writes {
        return shelf;
    }
    shelf.put_lines(b"standard output", text, to)
}

// How far two windows that were read bring the pass, and their lines put away.
pub(crate) fn judge(
    day: Contents,
    writes: bool,
    pass: Pass,
    shown: Filled,
    lines: &[u8],
    beside: Filled,
    index: &[u8],
    to: &Target,
) -> Pass
    requires wide { Wide day pass.sweep lines.now index.now }
    requires read_from { ReadFrom pass.sweep.at lines.now shown }
    requires read_from_2 { ReadFrom (day.start + 4 * pass.sweep.lines) index.now beside }
    requires after_lines { writes ≡ true → AfterLines pass.shelf.total }
    ensures { Judges day writes pass lines.now index.now result }
{
    let next = sweep_on(day, pass.sweep, lines, index);
    let used = next.at - pass.sweep.at;
    let shelf = put(writes, pass.shelf, &lines[..used], to);
    Pass {
        sweep: next,
        shelf,
        read: true,
    }
}

// A window could not be read.
fn unread(pass: Pass) -> Pass
    ensures { result ≡ unread_of pass }
{
    Pass {
        read: false,
        ..pass
    }
}

// One window of each, from where the pass stands.
pub(crate) fn turn(
    volume: Volume,
    name: &[u8],
    day: Contents,
    writes: bool,
    pass: Pass,
    lines: &mut [u8],
    index: &mut [u8],
    file: &File,
    to: &Target,
) -> Pass
    requires passing { Passing volume.size day writes pass }
    requires to_go { (pass.shelf.live ≡ true) × (pass.sweep.lines < day.lines) }
    requires lines_len { (length lines.old ≡ 65536) × (length index.old ≡ 8192) }
    ensures { Turns volume.size day writes pass lines.new index.new result }
{
    let sweep = pass.sweep;
    let n = least(day.start - sweep.at, lines.len());
    let Some(shown) = volume.fill(name, sweep.at, &mut lines[..n], file) else {
        return unread(pass);
    };
    let m = least(4 * (day.lines - sweep.lines), index.len());
    let place = day.start + 4 * sweep.lines;
    let Some(beside) = volume.fill(name, place, &mut index[..m], file) else {
        return unread(pass);
    };
    judge(
        day,
        writes,
        pass,
        shown,
        &lines[..n],
        beside,
        &index[..m],
        to,
    )
}

// Whether a pass that stood at `before` lines has come further, and not to the end.
fn is_on(day: Contents, before: usize, pass: Pass) -> bool
    ensures { result ≡ goes_on day before pass }
{
    if !pass.read {
        return false;
    }
    if !pass.shelf.is_live() {
        return false;
    }
    let sweep = pass.sweep;
    if sweep.lines == before {
        return false;
    }
    sweep.lines < day.lines
}

// All windows, until one brings no line more.
fn go_on(
    volume: Volume,
    name: &[u8],
    day: Contents,
    writes: bool,
    lines: &mut [u8],
    index: &mut [u8],
    file: &File,
    to: &Target,
) -> Pass
    requires told { Told volume.size (Ok day) }
    requires lines_len { (length lines.old ≡ 65536) × (length index.old ≡ 8192) }
    ensures { Passed volume.size day writes result }
{
    let sweep = Sweep { at: 0, lines: 0 };
    let shelf = Shelf::start(STANDARD_OUTPUT);
    let mut pass = Pass {
        sweep,
        shelf,
        read: true,
    };
    if day.lines == 0 {
        return pass;
    }
    loop {
        let before = pass.sweep.lines;
        pass = turn(volume, name, day, writes, pass, lines, index, file, to);
        if !is_on(day, before, pass) {
            return pass;
        }
    }
}

// The whole file in windows of its own.
pub(crate) fn go_over(
    volume: Volume,
    name: &[u8],
    day: Contents,
    writes: bool,
    file: &File,
    to: &Target,
) -> Pass
    requires { Told volume.size (Ok day) }
    ensures { Passed volume.size day writes result }
{
    // fixed rooms, whatever the file: nothing is put on the heap
    let mut lines = [0u8; LINES];
    let mut index = [0u8; INDEX];
    go_on(volume, name, day, writes, &mut lines, &mut index, file, to)
}

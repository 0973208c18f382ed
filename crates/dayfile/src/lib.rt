// The day file (document 02, a): the lines of a day, each with its line feed, then an index of their offsets, then a trailer. A file is opened whatever its bytes
// are, a line is handed back as a part of it; lines are kept one by one in a buffer and a run of offsets that the caller lends, and then the file is ended (`ending`).

#![tactic(auto)]

pub mod ending;
pub mod numbers;
pub mod walking;

ghost use Rattle.std.specs.Prelude.{◌≡◌, ◌-◌, ◌≤◌, ◌<◌, length, drop, Ok};
ghost use Rattle.shapes.specs.Picture.{starts_at};
ghost use Rattle.dayfile.specs.DayFile.{version1, trailer_size};
ghost use Rattle.dayfile.specs.Opening.{open_by, open_of, lines_in, numbered, place_of};
ghost use Rattle.dayfile.specs.Keeping.{is_full, kept_of, out_after, run_after};

use crate::numbers::read_number;
use crate::walking::{line_size, walk};
use rules::{LINE_FEED, LONGEST_LINE};
use shapes::sweeps::find_far;
use std::marker::Model;
use text::writing::{has_room, put_bytes};

// "at most 65,535 of them"
pub const MOST_LINES: usize = 65535;

// "the index starts below 4,294,967,296"
const TOO_FAR: usize = 4294967296;

// What a trailer has beside the start of the index: how many bytes its number of lines takes, its version, and how many lines there may be.
#[derive(Clone, Copy)]
pub struct Trailer {
    pub wide: usize,
    pub version: usize,
    pub most: usize,
}

// Its numbers fit the bytes that it has for them: so of every trailer, and no function asks it.
impl Model for Trailer {
    ghost use Rattle.dayfile.specs.Parts.{Parts};

    ghost Value = { Parts };

    ghost use Rattle.dayfile.specs.DayFile.{Sound};

    ghost view = { λ t. record { wide = t.wide; version = t.version; most = t.most } };

    ghost invariant = { λ t. Sound (record { wide = t.wide; version = t.version; most = t.most }) };

    ghost inverse = { λ p. record { wide = p.wide; version = p.version; most = p.most } };
}

// How many lines a file has, and where its index starts.
#[derive(Clone, Copy)]
pub struct Contents {
    pub lines: usize,
    pub start: usize,
}

// Why `open` refuses: 20, 21, 22, 23.
#[derive(Clone, Copy, PartialEq, Eq)]
pub enum NotOpened {
    TooShort,
    UnknownVersion,
    WrongLength,
    WrongLines,
}

// How far a file has been kept: the place after its last line, and how many lines there are.
#[derive(Clone, Copy)]
pub struct Place {
    pub at: usize,
    pub count: usize,
}

// Why `keep_line` refuses: 2, 25, 24, 15.
#[derive(Clone, Copy, PartialEq, Eq)]
pub enum NotKept {
    TooLong,
    LineFeed,
    TooMany,
    NoRoom,
}

// Why `end_file` refuses: 13, 24, 15.
#[derive(Clone, Copy, PartialEq, Eq)]
pub enum NotEnded {
    Disagree,
    TooMany,
    NoRoom,
}

// "number of lines (2), version 1 (2)". A function and not a constant: a constant has no clause that says which trailer it is.
pub fn version_1() -> Trailer
    ensures { result ≡ version1 }
{
    Trailer {
        wide: 2,
        version: 1,
        most: MOST_LINES,
    }
}

// Its start, its number of lines and its version.
pub fn trailer_size(trailer: Trailer) -> usize
    ensures value { result ≡ trailer_size trailer }
    ensures upper_bound { result ≤ 10 }
{
    4 + trailer.wide + 2
}

// 20 to 22: what the size of a file and its last bytes tell.
pub fn open_tail(trailer: Trailer, size: usize, tail: &[u8]) -> Result<Contents, NotOpened>
    requires tail_len { trailer_size trailer ≤ size → length tail.now ≡ trailer_size trailer }
    ensures { result ≡ open_by trailer size tail.now }
{
    let width = trailer_size(trailer);
    if size < width {
        return Err(NotOpened::TooShort);
    }
    let after = 4 + trailer.wide;
    if read_number(&tail[after..]) != trailer.version {
        return Err(NotOpened::UnknownVersion);
    }
    let start = read_number(&tail[..4]);
    let lines = read_number(&tail[4..after]);
    if start + 4 * lines + width != size {
        return Err(NotOpened::WrongLength);
    }
    Ok(Contents { lines, start })
}

// The last n bytes, or all where there are fewer.
fn last<'a>(n: usize, s: &'a [u8]) -> &'a [u8]
    ensures { result.now ≡ drop (length s.now - n) s.now }
{
    &s[s.len().saturating_sub(n)..]
}

// A file with this trailer: 20 to 22, and then 23, in one pass over its lines beside its index.
fn open_as(trailer: Trailer, file: &[u8]) -> Result<Contents, NotOpened>
    ensures { result ≡ open_of trailer file.now }
{
    let width = trailer_size(trailer);
    let day = open_tail(trailer, file.len(), last(width, file))?;
    let end = day.start + 4 * day.lines;
    let walked = walk(0, &file[..day.start], &file[day.start..end]);
    if walked.lines != day.lines || walked.used != day.start {
        return Err(NotOpened::WrongLines);
    }
    Ok(day)
}

// How many lines a file has and where its index starts, whatever its bytes are.
pub fn open(file: &[u8]) -> Result<Contents, NotOpened>
    ensures { result ≡ open_of version1 file.now }
{
    open_as(version_1(), file)
}

// The line with this number, of a file that was opened and has it: only its offset and its bytes are looked at.
pub fn known_line<'a>(file: &'a [u8], day: Contents, number: usize) -> &'a [u8]
    requires file_value { open_of version1 file.now ≡ Ok day }
    requires number_nonzero { 0 < number }
    requires number_le_lines { number ≤ day.lines }
    ensures result_value { result.now ≡ numbered (lines_in version1 file.now) number }
    ensures ref_ptr_value { result.ref_ptr ≡ starts_at file.entry.ref_ptr (place_of (lines_in version1 file.now) number) }
{
    let at = day.start + 4 * (number - 1);
    let from = read_number(&file[at..at + 4]);
    let size = line_size(&file[from..day.start]);
    &file[from..from + size - 1]
}

// The line with this number, the first being 1: a part of the file, not a copy. Where there is none, or the bytes are no day file, an empty part at the start.
pub fn line<'a>(file: &'a [u8], number: usize) -> &'a [u8]
    ensures result_value { result.now ≡ numbered (lines_in version1 file.now) number }
    ensures ref_ptr_value { result.ref_ptr ≡ starts_at file.entry.ref_ptr (place_of (lines_in version1 file.now) number) }
{
    match open(file) {
        Ok(day) if 0 < number && number <= day.lines => known_line(file, day, number),
        _ => &file[..0],
    }
}

// 24: as many lines as there may be, or a byte too far.
fn is_full(most: usize, place: Place, line: &[u8]) -> bool
    requires { length line.now ≤ 2048 }
    ensures { result ≡ is_full most place line.now }
{
    place.count >= most || place.at >= TOO_FAR - (line.len() + 1)
}

// Keeps a line in a buffer that is the file from its byte `base` on, of at most so many lines.
pub fn keep_from(
    most: usize,
    base: usize,
    line: &[u8],
    out: &mut [u8],
    offsets: &mut [u32],
    place: Place,
) -> Result<Place, NotKept>
    requires { base ≤ place.at }
    ensures value { result ≡ kept_of most base line.now out.old offsets.old place }
    ensures out_after { out.new ≡ out_after result base line.now out.old place }
    ensures offsets_after { offsets.new ≡ run_after result offsets.old place }
{
    if line.len() > LONGEST_LINE {
        return Err(NotKept::TooLong);
    }
    if find_far(LINE_FEED, line) < line.len() {
        return Err(NotKept::LineFeed);
    }
    if is_full(most, place, line) {
        return Err(NotKept::TooMany);
    }
    let at = place.at - base;
    let n = line.len();
    if !has_room(n + 1, out.len(), at) {
        return Err(NotKept::NoRoom);
    }
    if place.count >= offsets.len() {
        return Err(NotKept::NoRoom);
    }
    let _ = put_bytes(line, out, at);
    out[at + n] = LINE_FEED;
    offsets[place.count] = place.at as u32;
    Ok(Place {
        at: place.at + n + 1,
        count: place.count + 1,
    })
}

// Keeps a line from the given place on, and its offset in the run; where it refuses it writes nothing.
pub fn keep_line(
    line: &[u8],
    out: &mut [u8],
    offsets: &mut [u32],
    place: Place,
) -> Result<Place, NotKept>
    ensures value { result ≡ kept_of 65535 0 line.now out.old offsets.old place }
    ensures out_after { out.new ≡ out_after result 0 line.now out.old place }
    ensures offsets_after { offsets.new ≡ run_after result offsets.old place }
{
    keep_from(MOST_LINES, 0, line, out, offsets, place)
}

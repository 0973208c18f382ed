// Document 01's field rules as tests on bytes, single rules first and then the rule of each kind by its letter; those of stamps, clocks
// and times stand in `clocks`. And the frame of a line: where its parts stand, and how long it may be.

#![tactic(auto)]

pub mod clocks;

ghost use Rattle.std.specs.Prelude.{◌≡◌, ◌&&◌, cond, ◌%◌, leb, None, Some};
ghost use Rattle.text.specs.Number.{number_of};
ghost use Rattle.shapes.specs.Picture.{within};
ghost use Rattle.rules.specs.Form.{is_facility, is_key, is_fix, is_position, is_route, is_height, is_block, is_level, is_number, is_track_level};
ghost use Rattle.rules.specs.Kind.{is_form};
ghost use Rattle.rules.specs.Drawn.{is_drawn};

use crate::clocks::{is_arrival, is_clock, is_old_stamp, is_stamp, is_time};
use shapes::{find, is_of, one_of, run};

// The two rules for lines: that of the feed, and that of the old feed, which ended in 1999. The caller names the one meant.
#[derive(Clone, Copy)]
pub enum Rule {
    New,
    Old,
}

// The kinds of fields that are held as their text, each a letter and no enum: the definitions speak of lists of letters, the rows of document 01's table. (B, H, I, J, R, W and Z are left for what is no such field.)
pub const SEQUENCE: u8 = b'Q';

pub const STAMP: u8 = b'D';

// The old feed's, in a small letter.
pub const OLD_STAMP: u8 = b'd';

pub const KEY: u8 = b'K';

pub const NUMBER: u8 = b'N';

pub const PREFIX: u8 = b'X';

pub const MODEL: u8 = b'V';

pub const LETTER: u8 = b'E';

pub const FILED_SPEED: u8 = b'S';

pub const GROUND_SPEED: u8 = b'G';

pub const POINT: u8 = b'P';

pub const FIX: u8 = b'F';

pub const TIME: u8 = b'T';

pub const CLOCK: u8 = b'C';

pub const ARRIVAL: u8 = b'A';

pub const LEVEL: u8 = b'L';

pub const TRACK_LEVEL: u8 = b'M';

pub const POSITION: u8 = b'O';

// Four characters, right justified. Few have a space, so those without are asked first.
pub fn is_facility(s: &[u8]) -> bool
    ensures { result ≡ is_facility s.now }
{
    run(b'a', 4, 4, s) || one_of(b" aaa|  aa|   a", s)
}

// A letter and one to six alnum.
pub(crate) fn is_key(s: &[u8]) -> bool
    ensures { result ≡ is_key s.now }
{
    run(b'a', 2, 7, s) && is_of(b'l', s[0])
}

// 2 to 11 alnum, or 2 to 5, a slash, 1 to 6.
pub(crate) fn is_fix(s: &[u8]) -> bool
    ensures { result ≡ is_fix s.now }
{
    if run(b'a', 2, 11, s) {
        return true;
    }
    let i = find(b'/', s);
    if i >= s.len() {
        return false;
    }
    run(b'a', 2, 5, &s[..i]) && run(b'a', 1, 6, &s[i + 1..])
}

// Hours or degrees and their minutes, written together: at most `most`, minutes to 59.
fn is_minutes(most: u64, s: &[u8]) -> bool
    ensures { result ≡ (within 0 most s.now && leb (number_of 10 s.now % 100) 59) }
{
    text::number(s, 10).is_some_and(|n| n <= most && n % 100 <= 59)
}

// ddmm, N or S, slash, dddmm, E or W, in range.
pub fn is_position(s: &[u8]) -> bool
    ensures { result ≡ is_position s.now }
{
    s.len() == 12
        && is_of(b'n', s[4])
        && s[5] == b'/'
        && is_of(b'e', s[11])
        && is_minutes(9000, &s[0..4])
        && is_minutes(18000, &s[6..11])
}

// One or more bytes 33 to 126. A route is no short text, so it has no kind here.
pub fn is_route(s: &[u8]) -> bool
    ensures { result ≡ is_route s.now }
{
    let n = s.len();
    run(b'v', 1, n, s)
}

// A height: 2 or 3 digits.
fn is_height(s: &[u8]) -> bool
    ensures { result ≡ is_height s.now }
{
    run(b'd', 2, 3, s)
}

// Its number; nothing of what is no height.
fn height(s: &[u8]) -> Option<u64>
    ensures { result ≡ cond (is_height s.now) (Some (number_of 10 s.now)) None }
{
    if !is_height(s) {
        return None;
    }
    text::number(s, 10)
}

// Two heights with B between them, the second no smaller than the first as a number: 05B005 is one, 100B99 is not.
fn is_block(s: &[u8]) -> bool
    ensures { result ≡ is_block s.now }
{
    let i = find(b'B', s);
    if i >= s.len() {
        return false;
    }
    let Some(first) = height(&s[..i]) else {
        return false;
    };
    let Some(second) = height(&s[i + 1..]) else {
        return false;
    };
    first <= second
}

// A height, or a block of two.
fn is_level(s: &[u8]) -> bool
    ensures { result ≡ is_level s.now }
{
    is_height(s) || is_block(s)
}

// Two digits and an alnum.
fn is_number(s: &[u8]) -> bool
    ensures { result ≡ is_number s.now }
{
    s.len() == 3 && run(b'd', 2, 2, &s[..2]) && is_of(b'a', s[2])
}

// Three digits, and a letter after them or none.
fn is_track_level(s: &[u8]) -> bool
    ensures { result ≡ is_track_level s.now }
{
    if s.len() == 4 {
        return run(b'd', 3, 3, &s[..3]) && is_of(b'l', s[3]);
    }
    run(b'd', 3, 3, s)
}

// The kinds whose rule is one or more pictures. (A picture of one class is tested as a run, which is quicker.)
fn is_drawn(kind: u8, s: &[u8]) -> bool
    ensures { result ≡ is_drawn kind s.now }
{
    match kind {
        SEQUENCE => run(b'h', 4, 4, s),
        NUMBER => is_number(s),
        PREFIX => one_of(b"a|da", s),
        LETTER => run(b'l', 1, 1, s),
        FILED_SPEED => run(b'd', 2, 4, s) || one_of(b"lddd|SC", s),
        GROUND_SPEED => run(b'd', 3, 3, s),
        TRACK_LEVEL => is_track_level(s),
        _ => false,
    }
}

// Whether s has the form of the kind.
pub fn is_form(kind: u8, s: &[u8]) -> bool
    ensures { result ≡ is_form kind s.now }
{
    match kind {
        STAMP => is_stamp(s),
        OLD_STAMP => is_old_stamp(s),
        KEY => is_key(s),
        MODEL => run(b'a', 2, 4, s),
        POINT => run(b'a', 2, 12, s),
        FIX => is_fix(s),
        TIME => is_time(s),
        CLOCK => is_clock(s),
        ARRIVAL => is_arrival(s),
        LEVEL => is_level(s),
        POSITION => is_position(s),
        _ => is_drawn(kind, s),
    }
}

// The stamp, the facility, the type and the body begin after this many bytes; the sequence number at the line's start.
pub const STAMP_AT: usize = 4;

pub const FACILITY_AT: usize = 12;

pub const TYPE_AT: usize = 16;

pub const BODY_AT: usize = 18;

// In an old line the center, the type and the body; the stamp at the line's start.
pub const OLD_CENTER_AT: usize = 6;

pub const OLD_TYPE_AT: usize = 7;

pub const OLD_BODY_AT: usize = 9;

// "A line is the bytes before a line feed (10)"
pub const LINE_FEED: u8 = 10;

// "line over 2,048 bytes"
pub const LONGEST_LINE: usize = 2048;

// "FZ over 439 bytes, counted from its type"
pub const LONGEST_PLAN: usize = 439;

// A row of the board: a flight's key, its arrival entry and its track; and which eleven words are those of an allowed row.
ghost use Rattle.std.specs.Prelude.{◌≡◌, ◌+◌, ◌≤◌, not, ◌&&◌, eqb, length, get_or, drop};
ghost use Rattle.board.specs.Row.{is_arrival_words, is_track_words, is_row_words};

use fields::flight::Key;
use fields::frame::Stamp;
use fields::plan::Point;
use fields::track::{ArrivalClock, GroundSpeed, Position, TrackLevel};
use fields::words::Worded;

// What a DZ or an AZ writes; the stamp is that of its line.
#[derive(Clone, Copy)]
pub struct Arrival {
    pub departure: Point,
    pub destination: Point,
    pub clock: ArrivalClock,
    pub stamp: Stamp,
}

// What a TZ writes; the stamp is that of its line.
#[derive(Clone, Copy)]
pub struct Track {
    pub speed: GroundSpeed,
    pub level: TrackLevel,
    pub position: Position,
    pub stamp: Stamp,
}

#[derive(Clone, Copy)]
pub struct Row {
    pub key: Key,
    pub arrival: Option<Arrival>,
    pub track: Option<Track>,
}

fn are_zero(a: u64, b: u64, c: u64) -> bool
    ensures { result ≡ (eqb a 0 && eqb b 0 && eqb c 0) }
{
    a == 0 && b == 0 && c == 0
}

// Four words of an arrival entry such as a line could give, or of none.
#[tactic(auto, unfolding(crate::specs::Row::is_arrival_words))]
fn is_arrival_at(words: &[u64], p: usize) -> bool
    requires { p + 4 ≤ length words.now }
    ensures { result ≡ is_arrival_words (get_or words.now p 0) (get_or words.now (p + 1) 0) (get_or words.now (p + 2) 0) (get_or words.now (p + 3) 0) }
{
    if words[p] == 0 {
        return are_zero(words[p + 1], words[p + 2], words[p + 3]);
    }
    Point(words[p]).holds()
        && Point(words[p + 1]).holds()
        && ArrivalClock(words[p + 2]).holds()
        && Stamp(words[p + 3]).holds()
}

// Four words of a track such as a line could give, or of none. (As for an arrival, but each part has a type of its own.)
#[tactic(auto, unfolding(crate::specs::Row::is_track_words))]
fn is_track_at(words: &[u64], p: usize) -> bool
    requires { p + 4 ≤ length words.now }
    ensures { result ≡ is_track_words (get_or words.now p 0) (get_or words.now (p + 1) 0) (get_or words.now (p + 2) 0) (get_or words.now (p + 3) 0) }
{
    if words[p] == 0 {
        return are_zero(words[p + 1], words[p + 2], words[p + 3]);
    }
    GroundSpeed(words[p]).holds()
        && TrackLevel(words[p + 1]).holds()
        && Position(words[p + 2]).holds()
        && Stamp(words[p + 3]).holds()
}

// Whether a row with these first words of its entries has one of them.
fn has_entry(departure: u64, speed: u64) -> bool
    ensures { result ≡ not (eqb departure 0 && eqb speed 0) }
{
    departure != 0 || speed != 0
}

// Whether the row from p on has an entry, and zeros in the two words kept for later.
fn is_whole(words: &[u64], p: usize) -> bool
    requires { p + 11 ≤ length words.now }
    ensures { result ≡ (not (eqb (get_or words.now (p + 1) 0) 0 && eqb (get_or words.now (p + 5) 0) 0) && eqb (get_or words.now (p + 9) 0) 0 && eqb (get_or words.now (p + 10) 0) 0) }
{
    has_entry(words[p + 1], words[p + 5]) && words[p + 9] == 0 && words[p + 10] == 0
}

// Whether the words from p on are those of a row that the board allows.
pub(crate) fn is_row(words: &[u64], p: usize) -> bool
    requires { p + 11 ≤ length words.now }
    ensures { result ≡ is_row_words (drop p words.now) }
{
    // one `&&` of the four: tried, the proof did not close with what the check finds
    if !Key(words[p]).holds() {
        return false;
    }
    if !is_arrival_at(words, p + 1) {
        return false;
    }
    if !is_track_at(words, p + 5) {
        return false;
    }
    is_whole(words, p)
}

// A row as its eleven words: read from the words that hold it, and written into them. (A row is named by the place of its first word: the words are
// lent, and the definitions speak of what stands from there on.)
ghost use Rattle.std.specs.Prelude.{◌≡◌, ◌+◌, ◌≤◌, length, get_or, drop};
ghost use Rattle.text.specs.Text.{spliced};
ghost use Rattle.board.specs.Row.{arrival_words, track_words, row_words, arrival_of, track_of, row_of};

use crate::WORDS_OF_A_ROW;
use crate::rows::{Arrival, Row, Track};
use fields::flight::Key;
use fields::frame::Stamp;
use fields::plan::Point;
use fields::track::{ArrivalClock, GroundSpeed, Position, TrackLevel};

// The arrival entry whose four words stand from p on; zeros are none.
#[tactic(auto, unfolding(crate::specs::Row::arrival_of))]
fn arrival_at(words: &[u64], p: usize) -> Option<Arrival>
    requires { p + 4 ≤ length words.now }
    ensures { result ≡ arrival_of (get_or words.now p 0) (get_or words.now (p + 1) 0) (get_or words.now (p + 2) 0) (get_or words.now (p + 3) 0) }
{
    if words[p] == 0 {
        return None;
    }
    Some(Arrival {
        departure: Point(words[p]),
        destination: Point(words[p + 1]),
        clock: ArrivalClock(words[p + 2]),
        stamp: Stamp(words[p + 3]),
    })
}

// The track whose four words stand from p on; zeros are none. (As for an arrival, but each part has a type of its own.)
#[tactic(auto, unfolding(crate::specs::Row::track_of))]
fn track_at(words: &[u64], p: usize) -> Option<Track>
    requires { p + 4 ≤ length words.now }
    ensures { result ≡ track_of (get_or words.now p 0) (get_or words.now (p + 1) 0) (get_or words.now (p + 2) 0) (get_or words.now (p + 3) 0) }
{
    if words[p] == 0 {
        return None;
    }
    Some(Track {
        speed: GroundSpeed(words[p]),
        level: TrackLevel(words[p + 1]),
        position: Position(words[p + 2]),
        stamp: Stamp(words[p + 3]),
    })
}

// The row whose words stand from p on.
pub(crate) fn row_at(words: &[u64], p: usize) -> Row
    requires { p + 11 ≤ length words.now }
    ensures { result ≡ row_of (drop p words.now) }
{
    Row {
        key: Key(words[p]),
        arrival: arrival_at(words, p + 1),
        track: track_at(words, p + 5),
    }
}

// The four words of an arrival entry, zeros where it is none.
#[tactic(auto, unfolding(crate::specs::Row::arrival_words))]
fn arrival_words(arrival: Option<Arrival>) -> [u64; 4]
    ensures { result ≡ arrival_words arrival }
{
    match arrival {
        None => [0; 4],
        Some(a) => [a.departure.0, a.destination.0, a.clock.0, a.stamp.0],
    }
}

// The four words of a track, zeros where it is none.
#[tactic(auto, unfolding(crate::specs::Row::track_words))]
fn track_words(track: Option<Track>) -> [u64; 4]
    ensures { result ≡ track_words track }
{
    match track {
        None => [0; 4],
        Some(t) => [t.speed.0, t.level.0, t.position.0, t.stamp.0],
    }
}

// The words from p on become the row's; no other word changes.
pub(crate) fn put_row(words: &mut [u64], p: usize, row: Row)
    requires { p + 11 ≤ length words.old }
    ensures { words.new ≡ spliced words.old p (row_words row) }
{
    let a = arrival_words(row.arrival);
    let t = track_words(row.track);
    let eleven = [
        row.key.0, a[0], a[1], a[2], a[3], t[0], t[1], t[2], t[3], 0, 0,
    ];
    words[p..p + WORDS_OF_A_ROW].copy_from_slice(&eleven);
}

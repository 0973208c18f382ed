// What fields mean, for whoever asks: a stamp's moment, a position's minutes, a level's numbers. What is held of a field is
// its text; nothing here changes it.

#![tactic(auto)]

pub mod ages;

ghost use Rattle.std.specs.Prelude.{◌≡◌, ◌≤◌, length, take};
ghost use Rattle.meanings.specs.Meaning.{decimal_of, shown_of, in_minutes, signed_by, moment_of, moment_in, minutes_of, minutes_in, levels_of, levels_in, TellsIn};

use fields::frame::Stamp;
use fields::plan::Level;
use fields::track::Position;
use rules::clocks;
use text::{NotWritten, writing};

// Day, hour, minute, second, and the seconds since the day began.
#[derive(Clone, Copy)]
pub struct Moment {
    pub day: u64,
    pub hour: u64,
    pub minute: u64,
    pub second: u64,
    pub seconds: u64,
}

#[derive(Clone, Copy)]
pub enum Levels {
    One(u64),
    Block(u64, u64),
}

// The decimal number that s is; 0 where it is none.
fn decimal(s: &[u8]) -> u64
    ensures { result ≡ decimal_of s.now }
{
    let number = text::number(s, 10);
    match number {
        Some(n) => n,
        None => 0,
    }
}

// Writes the text of t at the start of the room, and answers how long it is; 0 where t has none, since no field is empty.
fn show(t: u64, room: &mut [u8; 12]) -> usize
    ensures upper_bound { result ≤ length room.new }
    ensures room_after { take result room.new ≡ shown_of t }
{
    let written = writing::put(t, room, 0);
    match written {
        Ok(n) => n,
        Err(_) => 0,
    }
}

fn moment_of(s: &[u8]) -> Option<Moment>
    ensures { result ≡ moment_of s.now }
{
    if !clocks::is_stamp(s) {
        return None;
    }
    let day = decimal(&s[0..2]);
    let hour = decimal(&s[2..4]);
    let minute = decimal(&s[4..6]);
    let second = decimal(&s[6..8]);
    let seconds = hour * 3600 + minute * 60 + second;
    Some(Moment {
        day,
        hour,
        minute,
        second,
        seconds,
    })
}

pub fn stamp_moment(stamp: Stamp) -> Option<Moment>
    ensures { result ≡ moment_in stamp.0 }
{
    // a fixed room: nothing is put on the heap
    let mut room = [0u8; 12];
    let n = show(stamp.0, &mut room);
    moment_of(&room[..n])
}

// Degrees and minutes, written together, as minutes.
fn in_minutes(n: u64) -> u64
    requires { n ≤ 18000 }
    ensures value { result ≡ in_minutes n }
    ensures upper_bound { result ≤ 10899 }
{
    n / 100 * 60 + n % 100
}

// (The flag is the sign, and chooses nothing else.)
fn signed(positive: bool, n: u64) -> i64
    requires { n ≤ 10899 }
    ensures { result ≡ signed_by positive n }
{
    if positive {
        return n as i64;
    }
    0 - (n as i64)
}

fn minutes_of(s: &[u8]) -> Option<(i64, i64)>
    ensures { result ≡ minutes_of s.now }
{
    if !rules::is_position(s) {
        return None;
    }
    let latitude = in_minutes(decimal(&s[0..4]));
    let longitude = in_minutes(decimal(&s[6..11]));
    let north = s[4] == b'N';
    let east = s[11] == b'E';
    let y = signed(north, latitude);
    let x = signed(east, longitude);
    Some((y, x))
}

pub fn position_minutes(position: Position) -> Option<(i64, i64)>
    ensures { result ≡ minutes_in position.0 }
{
    // a fixed room: nothing is put on the heap
    let mut room = [0u8; 12];
    let n = show(position.0, &mut room);
    minutes_of(&room[..n])
}

fn levels_of(s: &[u8]) -> Option<Levels>
    ensures { result ≡ levels_of s.now }
{
    if !rules::is_form(rules::LEVEL, s) {
        return None;
    }
    let i = shapes::find(b'B', s);
    if i >= s.len() {
        return Some(Levels::One(decimal(s)));
    }
    let j = i + 1;
    let low = decimal(&s[..i]);
    let high = decimal(&s[j..]);
    Some(Levels::Block(low, high))
}

pub fn level_numbers(level: Level) -> Option<Levels>
    ensures value { result ≡ levels_in level.0 }
    ensures tells_in { TellsIn level.0 result }
{
    // a fixed room: nothing is put on the heap
    let mut room = [0u8; 12];
    let n = show(level.0, &mut room);
    levels_of(&room[..n])
}

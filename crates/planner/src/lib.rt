// A line or a strike on a board: what the ramp office's board does with what comes.

#![tactic(auto)]

pub mod asks;

ghost use Rattle.std.specs.Prelude.{◌≡◌, true, Ok, Some};
ghost use Rattle.rules.specs.Kind.{KEY};
ghost use Rattle.fields.specs.Word.{is_word};
ghost use Rattle.board.specs.Row.{is_arrival, is_track};
ghost use Rattle.board.specs.Board.{is_allowed};
ghost use Rattle.history.specs.Events.{is_event};
ghost use Rattle.planner.specs.declared.asks.Asked.TheVariants as asked;
ghost use Rattle.planner.specs.Asked.{asked_of};
ghost use Rattle.planner.specs.Apply.{event_of, Entered, apply_of, board_after, strike_of, board_struck, apply_number, apply_place, strike_number, strike_place};
ghost use Rattle.planner.specs.Cases.{ApplyCase, StrikeCase};
ghost use Rattle.planner.specs.declared.NotTaken.TheVariants as untaken;
ghost use Rattle.planner.specs.declared.NotStruck.TheVariants as unstruck;

use crate::asks::Asked;
use board::listing::{look, write};
use board::rows::{Arrival, Row, Track};
use board::{Full, NotListed, is_allowed, listing};
use fields::flight::Key;
use fields::words::Worded;
use line::Refusal;

// Why `apply` leaves the board as it is: the line's own answer; 13; 12.
#[derive(Clone, Copy, PartialEq, Eq)]
pub enum NotTaken {
    Line(Refusal),
    NotAllowed,
    Full,
}

// Why `strike` leaves the board as it is: 9 with place 1; 13; 14.
#[derive(Clone, Copy, PartialEq, Eq)]
pub enum NotStruck {
    NoKey,
    NotAllowed,
    NotListed,
}

impl From<Full> for NotTaken {
    ghost from_gives = { λ _ e. e ≡ untaken.Full };

    fn from(_: Full) -> NotTaken {
        NotTaken::Full
    }
}

impl From<NotListed> for NotStruck {
    ghost from_gives = { λ _ e. e ≡ unstruck.NotListed };

    fn from(_: NotListed) -> NotStruck {
        NotStruck::NotListed
    }
}

// A DZ writes the arrival entry and empties the track. (Three functions for three types of line: each writes another part of the row, and says so.)
fn put_dz(board: &mut [u64], key: Key, entry: Arrival) -> Result<(), NotTaken>
    requires board_value { is_allowed board.old ≡ true }
    requires key_value { is_word KEY key.0 ≡ true }
    requires value { is_arrival (Some entry) ≡ true }
    ensures { Entered board.old (Ok (asked.Dz key entry)) result board.new }
{
    let row = Row {
        key,
        arrival: Some(entry),
        track: None,
    };
    Ok(write(board, row)?)
}

// An AZ writes the arrival entry.
fn put_az(board: &mut [u64], key: Key, entry: Arrival) -> Result<(), NotTaken>
    requires board_value { is_allowed board.old ≡ true }
    requires key_value { is_word KEY key.0 ≡ true }
    requires value { is_arrival (Some entry) ≡ true }
    ensures { Entered board.old (Ok (asked.Az key entry)) result board.new }
{
    let track = look(&board[..], key).track;
    let row = Row {
        key,
        arrival: Some(entry),
        track,
    };
    Ok(write(board, row)?)
}

// A TZ writes the track.
fn put_tz(board: &mut [u64], key: Key, entry: Track) -> Result<(), NotTaken>
    requires board_value { is_allowed board.old ≡ true }
    requires key_value { is_word KEY key.0 ≡ true }
    requires value { is_track (Some entry) ≡ true }
    ensures { Entered board.old (Ok (asked.Tz key entry)) result board.new }
{
    let arrival = look(&board[..], key).arrival;
    let row = Row {
        key,
        arrival,
        track: Some(entry),
    };
    Ok(write(board, row)?)
}

// What a line asks, done on an allowed board.
fn enter(board: &mut [u64], asked: Asked) -> Result<(), NotTaken>
    requires board_value { is_allowed board.old ≡ true }
    requires asked_value { is_event (event_of (Ok asked)) ≡ true }
    ensures { Entered board.old (Ok asked) result board.new }
{
    match asked {
        Asked::Dz(key, entry) => put_dz(board, key, entry),
        Asked::Az(key, entry) => put_az(board, key, entry),
        Asked::Tz(key, entry) => put_tz(board, key, entry),
        Asked::Other => Ok(()),
    }
}

// A line on a board that is known to be allowed, so that a run of lines tests it once.
pub fn apply_allowed(board: &mut [u64], line: &[u8]) -> Result<(), NotTaken>
    requires { is_allowed board.old ≡ true }
    ensures { Entered board.old (asked_of line.now) result board.new }
{
    let asked = asks::read(line).map_err(NotTaken::Line)?;
    enter(board, asked)
}

// The line's own answer first, then 13, then 12.
pub fn apply(board: &mut [u64], line: &[u8]) -> Result<(), NotTaken>
    ensures value { result ≡ apply_of board.old line.now }
    ensures board_after { board.new ≡ board_after board.old line.now }
    ensures apply_case { ApplyCase board.old line.now (apply_number result) (apply_place result) board.new }
{
    let asked = asks::read(line).map_err(NotTaken::Line)?;
    if !is_allowed(&board[..]) {
        return Err(NotTaken::NotAllowed);
    }
    enter(board, asked)
}

// 9 with place 1 for a key not of that form, then 13, then 14.
pub fn strike(board: &mut [u64], key: &[u8]) -> Result<(), NotStruck>
    ensures value { result ≡ strike_of board.old key.now }
    ensures board_after { board.new ≡ board_struck board.old key.now }
    ensures strike_case { StrikeCase board.old key.now (strike_number result) (strike_place result) board.new }
{
    let key = Key::read(key).ok_or(NotStruck::NoKey)?;
    if !is_allowed(&board[..]) {
        return Err(NotStruck::NotAllowed);
    }
    Ok(listing::strike(board, key)?)
}

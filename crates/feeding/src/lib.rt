// A whole part of a feed: cut into its lines, each applied to the board, and counted.
#![tactic(auto)]

ghost use Rattle.std.specs.Prelude.{◌≡◌, true, [], length};
ghost use Rattle.board.specs.Board.{rows_of, words_of, is_allowed as is_board};
ghost use Rattle.history.specs.Steps.{rows_after, answer as answer_to};
ghost use Rattle.planner.specs.Apply.{line_event};
ghost use Rattle.cutter.specs.State.{is_allowed};
ghost use Rattle.cutter.specs.Calls.{line_in};
ghost use Rattle.cutter.specs.Cases.{told_by};
ghost use Rattle.feeding.specs.Tally.{one, rows_by, taken_by};
ghost use Rattle.feeding.specs.Fed.{fed_of, board_fed, held_after, refused_with};
ghost use Rattle.feeding.specs.Cases.{FeedCase, outcome_of};

use board::is_allowed;
use cutter::{Begun, CutAnswer, cut, line};
use planner::{NotTaken, apply_allowed};

// Why `feed` reads nothing: 13, the board or the state of the cutter is not allowed.
#[derive(Clone, Copy, PartialEq, Eq)]
pub struct NotFed;

// How much of the part was read, the cutter's state after it, how many lines ended in it, and how many of these were taken.
#[derive(Clone, Copy)]
pub struct AfterFeed {
    pub answer: Result<(), NotFed>,
    pub used: usize,
    pub begun: Begun,
    pub lines: usize,
    pub taken: usize,
}

// How many lines ended with a cut: an overlong one is a line too.
fn ended(answer: CutAnswer) -> usize
    ensures { result ≡ length (told_by answer []) }
{
    match answer {
        CutAnswer::Taken => 0,
        CutAnswer::InBuffer(_) => 1,
        CutAnswer::InPart(_) => 1,
        CutAnswer::TooLong => 1,
        CutAnswer::NotAllowed => 0,
    }
}

// A line on the board: 1 if it is taken.
fn apply_line(board: &mut [u64], line: &[u8]) -> usize
    requires { is_board board.old ≡ true }
    ensures value { result ≡ one (answer_to (rows_of board.old) (line_event line.now)) }
    ensures board_after { board.new ≡ words_of (rows_after (rows_of board.old) (line_event line.now)) }
{
    let answer = apply_allowed(board, line);
    match answer {
        Ok(()) => 1,
        Err(NotTaken::Line(_)) => 0,
        Err(_) => 0,
    }
}

// The line that a cut told of, if it did, on the board: how many are taken. An overlong one is not.
fn enter<'a>(board: &mut [u64], answer: CutAnswer, held: &'a [u8], rest: &'a [u8]) -> usize
    requires { is_board board.old ≡ true }
    ensures value { result ≡ taken_by (rows_of board.old) (told_by answer (line_in answer held.now rest.now)) }
    ensures board_after { board.new ≡ words_of (rows_by (rows_of board.old) (told_by answer (line_in answer held.now rest.now))) }
{
    match answer {
        CutAnswer::InBuffer(_) => apply_line(board, line(answer, held, rest)),
        CutAnswer::InPart(_) => apply_line(board, line(answer, held, rest)),
        _ => 0,
    }
}

// One line of what is left of the part, or all of it where no line ends there.
fn step(board: &mut [u64], held: &mut [u8], begun: Begun, rest: &[u8]) -> AfterFeed
    requires board_value { is_board board.old ≡ true }
    requires begun_value { is_allowed held.old begun ≡ true }
    ensures value { result ≡ fed_of board.old held.old begun 1 rest.now }
    ensures board_after { board.new ≡ board_fed board.old held.old begun 1 rest.now }
    ensures held_after { held.new ≡ held_after board.old held.old begun 1 rest.now }
{
    let done = cut(held, begun, rest);
    let taken = enter(board, done.answer, &held[..], rest);
    AfterFeed {
        answer: Ok(()),
        used: done.used,
        begun: done.begun,
        lines: ended(done.answer),
        taken,
    }
}

// As `feed`, on a board and a cutter state that are known to be allowed, so that a run of parts tests them once.
pub fn feed_allowed(
    board: &mut [u64],
    held: &mut [u8],
    begun: Begun,
    most: usize,
    part: &[u8],
) -> AfterFeed
    requires board_value { is_board board.old ≡ true }
    requires begun_value { is_allowed held.old begun ≡ true }
    ensures value { result ≡ fed_of board.old held.old begun most part.now }
    ensures board_after { board.new ≡ board_fed board.old held.old begun most part.now }
    ensures held_after { held.new ≡ held_after board.old held.old begun most part.now }
{
    let mut fed = AfterFeed {
        answer: Ok(()),
        used: 0,
        begun,
        lines: 0,
        taken: 0,
    };
    // a while, since each turn goes on by as many bytes as its line has
    while fed.used < part.len() && fed.lines < most {
        let turn = step(board, held, fed.begun, &part[fed.used..]);
        fed = AfterFeed {
            answer: Ok(()),
            used: fed.used + turn.used,
            begun: turn.begun,
            lines: fed.lines + turn.lines,
            taken: fed.taken + turn.taken,
        };
    }
    fed
}

// Nothing is read and nothing changed.
fn refused(begun: Begun) -> AfterFeed
    ensures { result ≡ refused_with begun }
{
    AfterFeed {
        answer: Err(NotFed),
        used: 0,
        begun,
        lines: 0,
        taken: 0,
    }
}

// Reads the part, at most `most` lines of it: not one byte after the last of these.
pub fn feed(board: &mut [u64], held: &mut [u8], begun: Begun, most: usize, part: &[u8]) -> AfterFeed
    ensures value { result ≡ fed_of board.old held.old begun most part.now }
    ensures board_after { board.new ≡ board_fed board.old held.old begun most part.now }
    ensures held_after { held.new ≡ held_after board.old held.old begun most part.now }
    ensures feed_case { FeedCase board.old held.old begun most part.now (outcome_of result board.new held.new) }
{
    if !is_allowed(&board[..]) {
        return refused(begun);
    }
    if !cutter::is_allowed(&held[..], begun) {
        return refused(begun);
    }
    feed_allowed(board, held, begun, most, part)
}

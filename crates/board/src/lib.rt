// The board, in words that the caller lends: word 0 the count of rows, then 256 rows of eleven words, unused words 0. Which words
// are allowed, and the board without rows; `listing` finds, writes and strikes.

#![tactic(auto)]

pub mod halving;
pub mod keeping;
pub mod listing;
pub mod rows;
pub mod slides;

ghost use Rattle.std.specs.Prelude.{◌≡◌, ◌+◌, ◌*◌, ◌≤◌, length, drop, replicate};
ghost use Rattle.board.specs.Rows.{rises};
ghost use Rattle.board.specs.Board.{W, read_rows, rows_hold, all_zero, is_allowed};

use crate::rows::is_row;

// A row is eleven words, and row i begins at word 1 + WORDS_OF_A_ROW * i.
pub const WORDS_OF_A_ROW: usize = 11;

pub const MOST_ROWS: usize = 256;

pub const WORDS_OF_A_BOARD: usize = 1 + WORDS_OF_A_ROW * MOST_ROWS;

// Where a key stands, or the place where it would go. (No Result: neither is a failure, and both are places.)
#[derive(Clone, Copy)]
pub enum Found {
    At(usize),
    Gap(usize),
}

// Why `listing::write` writes nothing: 12.
#[derive(Clone, Copy, PartialEq, Eq)]
pub struct Full;

// Why `listing::strike` strikes nothing: 14.
#[derive(Clone, Copy, PartialEq, Eq)]
pub struct NotListed;

// Whether each of the first n rows is one that the board allows.
fn rows_hold(board: &[u64], n: usize) -> bool
    requires { 1 + W * n ≤ length board.now }
    ensures { result ≡ rows_hold n (drop 1 board.now) }
{
    for i in 0..n {
        if !is_row(board, 1 + WORDS_OF_A_ROW * i) {
            return false;
        }
    }
    true
}

// Whether the keys of the first n rows rise strictly.
fn keys_rise(board: &[u64], n: usize) -> bool
    requires { 1 + W * n ≤ length board.now }
    ensures { result ≡ rises (read_rows n (drop 1 board.now)) }
{
    for i in 1..n {
        if board[1 + WORDS_OF_A_ROW * i] <= board[1 + WORDS_OF_A_ROW * (i - 1)] {
            return false;
        }
    }
    true
}

// Whether the words from p on are 0.
fn all_zero(board: &[u64], p: usize) -> bool
    requires { p ≤ length board.now }
    ensures { result ≡ all_zero (drop p board.now) }
{
    board[p..].iter().all(|word| *word == 0)
}

// Whether the words, any words, are a board that the rules allow.
pub fn is_allowed(board: &[u64]) -> bool
    ensures { result ≡ is_allowed board.now }
{
    // one `&&` of the five: tried, the proof did not close with what the check finds
    if board.len() != WORDS_OF_A_BOARD {
        return false;
    }
    if board[0] > MOST_ROWS as u64 {
        return false;
    }
    let n = board[0] as usize;
    if !rows_hold(board, n) {
        return false;
    }
    if !keys_rise(board, n) {
        return false;
    }
    all_zero(board, 1 + WORDS_OF_A_ROW * n)
}

// Every word becomes 0: of 2,817 words that is the board without rows.
pub fn empty(board: &mut [u64])
    ensures { board.new ≡ replicate (length board.old) 0 }
{
    board.fill(0);
}

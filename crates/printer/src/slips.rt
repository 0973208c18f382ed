// The line of one row of the board: how long it is, and written. (That a word is a text's is said by each function: it comes out of the lent board, where
// no word has a type.)
ghost use Rattle.std.specs.Prelude.{◌≡◌, true, [], ◌∷◌, ◌++◌, ◌+◌, ◌≤◌, length, drop};
ghost use Rattle.text.specs.Text.{is_packed, spliced};
ghost use Rattle.board.specs.Row.{row_of, is_row_words};
ghost use Rattle.printer.specs.RowText.{row_text};
ghost use Rattle.printer.specs.Parts.{part_text, parts_of, slip_text, SlipWords};

use text::{NotWritten, writing};

// The words of the row that stands from p on, in the order of its line.
fn parts(board: &[u64], p: usize) -> [u64; 8]
    requires { p + 11 ≤ length board.now }
    ensures { result ≡ parts_of (drop p board.now) }
{
    [
        board[p],
        board[p + 1],
        board[p + 2],
        board[p + 3],
        board[p + 8],
        board[p + 5],
        board[p + 6],
        board[p + 7],
    ]
}

// How many bytes stand for a word: of 0 the hyphen.
fn part_size(word: u64) -> usize
    requires { is_packed word ≡ true }
    ensures { result ≡ length (part_text word) }
{
    if word == 0 {
        return 1;
    }
    let found = writing::size(word);
    match found {
        Some(n) => n,
        None => 0,
    }
}

// Writes what stands for a word from place `at`; the place after it.
fn put_text(word: u64, out: &mut [u8], at: usize) -> usize
    requires { (is_packed word ≡ true) × (at + length (part_text word) ≤ length out.old) }
    ensures value { result ≡ at + length (part_text word) }
    ensures out_after { out.new ≡ spliced out.old at (part_text word) }
{
    if word == 0 {
        out[at] = b'-';
        return at + 1;
    }
    let written = writing::put(word, out, at);
    match written {
        Ok(n) => n,
        Err(_) => at,
    }
}

// The same, and the byte `after` after it.
pub fn put_part(word: u64, after: u8, out: &mut [u8], at: usize) -> usize
    requires { (is_packed word ≡ true) × (at + length (part_text word) + 1 ≤ length out.old) }
    ensures value { result ≡ at + length (part_text word) + 1 }
    ensures out_after { out.new ≡ spliced out.old at (part_text word ++ after ∷ []) }
{
    let end = put_text(word, out, at);
    out[end] = after;
    end + 1
}

// How long the line of eight words is.
fn line_size(words: &[u64]) -> usize
    requires { SlipWords words.now }
    ensures { result ≡ length (slip_text words.now) }
{
    let mut n = 0;
    for word in words {
        n += part_size(*word) + 1;
    }
    n
}

// The line of eight words: a space after each but the last, and a line feed after that one.
fn put_line(words: &[u64], out: &mut [u8]) -> usize
    requires { SlipWords words.now × (length (slip_text words.now) ≤ length out.old) }
    ensures value { result ≡ length (slip_text words.now) }
    ensures out_after { out.new ≡ spliced out.old 0 (slip_text words.now) }
{
    let mut at = 0;
    for word in &words[..7] {
        at = put_part(*word, b' ', out, at);
    }
    put_part(words[7], b'\n', out, at)
}

// How long the line is of the row that stands from p on.
pub(crate) fn size(board: &[u64], p: usize) -> usize
    requires p_in_bounds { p + 11 ≤ length board.now }
    requires board_value { is_row_words (drop p board.now) ≡ true }
    ensures { result ≡ length (row_text (row_of (drop p board.now))) }
{
    let words = parts(board, p);
    line_size(&words)
}

// Writes the line of the row that stands from p on at the start of the buffer; the place after it.
pub(crate) fn put(board: &[u64], p: usize, out: &mut [u8]) -> usize
    requires p_in_bounds { p + 11 ≤ length board.now }
    requires board_value { is_row_words (drop p board.now) ≡ true }
    requires board_in_bounds { length (row_text (row_of (drop p board.now))) ≤ length out.old }
    ensures value { result ≡ length (row_text (row_of (drop p board.now))) }
    ensures out_after { out.new ≡ spliced out.old 0 (row_text (row_of (drop p board.now))) }
{
    let words = parts(board, p);
    put_line(&words, out)
}

// The board as text: the line of flights and a line for each of them, and the line of what was read and taken.

#![tactic(auto)]

pub mod slips;

ghost use Rattle.std.specs.Prelude.{◌≡◌, true, ◌+◌, ◌≤◌, length};
ghost use Rattle.text.specs.Text.{spliced, written_next, written_bytes};
ghost use Rattle.fields.specs.Answer.{write_answer};
ghost use Rattle.board.specs.Board.{rows_of, is_allowed};
ghost use Rattle.printer.specs.RowText.{rows_text};
ghost use Rattle.printer.specs.Text.{counts_text};
ghost use Rattle.printer.specs.Print.{text_in, print_of, out_after, print_number, PrintCase, CountsCase};
ghost use Rattle.printer.specs.Asks.{counted, RowsAsk, BoardAsks};

use board::{WORDS_OF_A_ROW, is_allowed};
use text::writing::{has_room, put_bytes};
use text::{NotWritten, decimals};

// Why `print` writes nothing: 15; 13. Else it answers the place after the text.
#[derive(Clone, Copy, PartialEq, Eq)]
pub enum NotPrinted {
    NoRoom,
    NotAllowed,
}

// Writes a name with its space, a number and the byte `after` from place `at`; the place after them.
pub fn put_count(name: &[u8], n: u64, after: u8, out: &mut [u8], at: usize) -> usize
    requires { at + length (counted name.now n after) ≤ length out.old }
    ensures value { result ≡ at + length (counted name.now n after) }
    ensures out_after { out.new ≡ spliced out.old at (counted name.now n after) }
{
    let start = at + name.len();
    let end = start + decimals::size(n);
    let _ = put_bytes(name, out, at);
    let _ = decimals::put(n, out, start);
    out[end] = after;
    end + 1
}

// How long the text of an allowed board is: the line of flights, and each row's.
fn board_size(board: &[u64]) -> usize
    requires { is_allowed board.now ≡ true }
    ensures { result ≡ length (text_in board.now) }
{
    let flights = board[0];
    let mut total = 9 + decimals::size(flights);
    for i in 0..flights as usize {
        total += slips::size(board, 1 + WORDS_OF_A_ROW * i);
    }
    total
}

// The rows' lines from place `at`, each into the rest of the buffer.
fn put_rows(board: &[u64], out: &mut [u8], at: usize)
    requires { RowsAsk board.now out.old at }
    ensures { out.new ≡ spliced out.old at (rows_text (rows_of board.now)) }
{
    let rows = board[0] as usize;
    let mut next = at;
    for i in 0..rows {
        let size = slips::put(board, 1 + WORDS_OF_A_ROW * i, &mut out[next..]);
        next += size;
    }
}

fn put_board(board: &[u64], out: &mut [u8], at: usize)
    requires { BoardAsks board.now out.old at }
    ensures { out.new ≡ spliced out.old at (text_in board.now) }
{
    let flights = board[0];
    let j = put_count(b"FLIGHTS ", flights, b'\n', out, at);
    put_rows(board, out, j);
}

// Writes the board from place `at`: 13 for a board that is not allowed, then 15 where its text does not fit; every other byte
// stays, and where it refuses it writes nothing.
pub fn print(board: &[u64], out: &mut [u8], at: usize) -> Result<usize, NotPrinted>
    ensures value { result ≡ print_of board.now out.old at }
    ensures out_after { out.new ≡ out_after board.now out.old at }
    ensures print_case { PrintCase board.now out.old at (print_number result) out.new }
{
    if !is_allowed(board) {
        return Err(NotPrinted::NotAllowed);
    }
    let n = board_size(board);
    if !has_room(n, out.len(), at) {
        return Err(NotPrinted::NoRoom);
    }
    put_board(board, out, at);
    Ok(at + n)
}

fn put_counts(lines: u64, taken: u64, out: &mut [u8], at: usize)
    requires { at + length (counts_text lines taken) ≤ length out.old }
    ensures { out.new ≡ spliced out.old at (counts_text lines taken) }
{
    let j = put_count(b"LINES ", lines, b' ', out, at);
    put_count(b"TAKEN ", taken, b'\n', out, j);
}

// Writes the line of how many lines were read, and how many of them taken, from place `at`: 15 where it does not fit, and then it writes nothing.
pub fn print_counts(lines: u32, taken: u32, out: &mut [u8], at: usize) -> Result<usize, NotWritten>
    ensures value { result ≡ written_next true (counts_text lines taken) out.old at }
    ensures out_after { out.new ≡ written_bytes true (counts_text lines taken) out.old at }
    ensures counts_case { CountsCase lines taken out.old at (write_answer result) out.new }
{
    let n = 14 + decimals::size(lines as u64) + decimals::size(taken as u64);
    if !has_room(n, out.len(), at) {
        return Err(NotWritten::NoRoom);
    }
    put_counts(lines as u64, taken as u64, out, at);
    Ok(at + n)
}

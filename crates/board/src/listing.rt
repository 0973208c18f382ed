// A flight found on an allowed board, its row looked at, written and struck off. (That the board is allowed is said by each function here, and in
// `planner` and `feeding`, and not by a type: the public calls take the words that the caller lends, so that a type over them would be made and taken
// apart at each call.)
ghost use Rattle.std.specs.Prelude.{◌≡◌, true, ◌+◌, ◌*◌, ◌-◌, ◌≤◌, ◌<◌, length, get_or};
ghost use Rattle.board.specs.Row.{is_row};
ghost use Rattle.board.specs.Rows.{find_in, look_row};
ghost use Rattle.board.specs.Slides.{slid_right, slid_left, zeroed};
ghost use Rattle.board.specs.Board.{W, rows_of, is_allowed, found_of};
ghost use Rattle.board.specs.Posts.{Wrote, Stricken};

use crate::halving::one_left;
use crate::keeping::{put_row, row_at};
use crate::rows::Row;
use crate::slides::{clear, slide_left, slide_right};
use crate::{Found, Full, MOST_ROWS, NotListed, WORDS_OF_A_ROW};
use fields::flight::Key;

// The place of a key, or the place where it would go. The one row that is left of all, halved and halved again, tells it.
pub(crate) fn find(board: &[u64], key: Key) -> Found
    requires { is_allowed board.now ≡ true }
    ensures { result ≡ found_of (find_in (rows_of board.now) key.0) }
{
    let n = board[0] as usize;
    if n == 0 {
        return Found::Gap(0);
    }
    let i = one_left(board, key.0, 0, n);
    let left = board[1 + WORDS_OF_A_ROW * i];
    if left == key.0 {
        return Found::At(i);
    }
    if left < key.0 {
        return Found::Gap(i + 1);
    }
    Found::Gap(i)
}

// The row of a key; a row without entries where the flight is not listed.
pub fn look(board: &[u64], key: Key) -> Row
    requires { is_allowed board.now ≡ true }
    ensures { result ≡ look_row key.0 (rows_of board.now) }
{
    let found = find(board, key);
    match found {
        Found::At(i) => row_at(board, 1 + WORDS_OF_A_ROW * i),
        Found::Gap(_) => Row {
            key,
            arrival: None,
            track: None,
        },
    }
}

// The rows from row i on move down by one; row i stays as it was, and the count too.
fn open_gap(board: &mut [u64], i: usize)
    requires { (i ≤ get_or board.old 0 0) × (1 + W * get_or board.old 0 0 + W ≤ length board.old) }
    ensures { board.new ≡ slid_right board.old (1 + W * i) (1 + W * get_or board.old 0 0) W }
{
    let n = board[0] as usize;
    slide_right(
        board,
        1 + WORDS_OF_A_ROW * i,
        1 + WORDS_OF_A_ROW * n,
        WORDS_OF_A_ROW,
    );
}

// The rows after row i move up by one, and the last becomes 0; the count stays.
fn close_gap(board: &mut [u64], i: usize)
    requires { (i < get_or board.old 0 0) × (1 + W * get_or board.old 0 0 ≤ length board.old) }
    ensures { board.new ≡ zeroed (slid_left board.old (1 + W * i) (W * (get_or board.old 0 0 - (i + 1))) W) (1 + W * (get_or board.old 0 0 - 1)) W }
{
    let n = board[0] as usize;
    slide_left(
        board,
        1 + WORDS_OF_A_ROW * i,
        WORDS_OF_A_ROW * (n - (i + 1)),
        WORDS_OF_A_ROW,
    );
    clear(board, 1 + WORDS_OF_A_ROW * (n - 1), WORDS_OF_A_ROW);
}

// The row stands in the place of its key's, or between the others; a full board has no room for another flight.
pub fn write(board: &mut [u64], row: Row) -> Result<(), Full>
    requires { (is_allowed board.old ≡ true) × (is_row row ≡ true) }
    ensures { Wrote board.old row result board.new }
{
    let found = find(board, row.key);
    match found {
        Found::At(i) => {
            put_row(board, 1 + WORDS_OF_A_ROW * i, row);
            Ok(())
        }
        Found::Gap(i) => {
            let n = board[0];
            if n >= MOST_ROWS as u64 {
                return Err(Full);
            }
            open_gap(board, i);
            put_row(board, 1 + WORDS_OF_A_ROW * i, row);
            board[0] = n + 1;
            Ok(())
        }
    }
}

// The flight's row goes, and the rows after it move up.
pub fn strike(board: &mut [u64], key: Key) -> Result<(), NotListed>
    requires { is_allowed board.old ≡ true }
    ensures { Stricken board.old key.0 result board.new }
{
    let found = find(board, key);
    match found {
        Found::At(i) => {
            let n = board[0];
            close_gap(board, i);
            board[0] = n - 1;
            Ok(())
        }
        Found::Gap(_) => Err(NotListed),
    }
}

// A key looked for among rows by halves (request k): a look at the middle row leaves half of the rows, until one is left. (Not by the library's search:
// it wants the keys side by side, and these stand eleven words apart.)
ghost use Rattle.std.specs.Prelude.{◌≡◌, true, ◌+◌, ◌*◌, ◌≤◌, ◌<◌, length, get_or};
ghost use Rattle.board.specs.Board.{W, is_allowed};
ghost use Rattle.board.specs.Halving.{half_from, Left};

use crate::WORDS_OF_A_ROW;

// One look: the first row of the half that is left. Either half has width - width / 2 rows.
pub(crate) fn half_left(board: &[u64], key: u64, first: usize, width: usize) -> usize
    requires { (0 < width) × (1 + W * (first + width) ≤ length board.now) }
    ensures { result ≡ half_from board.now key first width }
{
    let middle = first + width / 2;
    if board[1 + WORDS_OF_A_ROW * middle] <= key {
        return middle;
    }
    first
}

// Of `width` rows from row `first` on, the one that is left when they are halved until one is. The board is lent on as
// &board[..], since a slice that is handed on as it came is copied at each call.
pub(crate) fn one_left(board: &[u64], key: u64, first: usize, width: usize) -> usize
    requires { (is_allowed board.now ≡ true) × (0 < width) × (first + width ≤ get_or board.now 0 0) }
    ensures { Left board.now key first width result }
{
    if width == 1 {
        return first;
    }
    let half = half_left(board, key, first, width);
    one_left(&board[..], key, half, width - width / 2)
}

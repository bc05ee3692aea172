// The watch list: which names the board shows.
ghost use Rattle.std.specs.Prelude.{◌≡◌, option_map};
ghost use Rattle.rows.specs.Rows.{row_count};
ghost use Rattle.board.specs.WatchList.{watch_board, watch_names, as_watched, refused_with};
ghost use Rattle.board.specs.ListSteps.{field_of};

use refusals::Refusal;
use rows::{Board, find, fresh, fresh_row, put_row};

// The tag of a name in a watch list.
pub const NAME_TAG: u8 = 0x01;

// A board, and whether what it was asked to watch is watched.
#[derive(Clone, Copy)]
pub struct Watched {
    pub board: Board,
    pub answer: Result<(), Refusal>,
}

// The board of a watch list. Where the list is refused the board shows nothing of it.
pub fn watch_list(fields: &[u8]) -> Watched
    ensures { result ≡ as_watched row_count (watch_names row_count fields.now) }
{
    let mut board = fresh();
    let mut rest = fields;
    // What is left, not a `for`: each field says by its length where the next one begins.
    while !rest.is_empty() {
        let Some((name, behind)) = read_field(rest) else {
            return refused(fresh());
        };
        let watched = watch(board, name);
        if watched.answer.is_err() {
            return refused(fresh());
        }
        board = watched.board;
        rest = behind;
    }
    Watched {
        board,
        answer: Ok(()),
    }
}

// The board with one name more, or as it was where the name is refused.
pub fn watch(board: Board, name: &[u8]) -> Watched
    ensures { result ≡ watch_board row_count board name.now }
{
    if !packet::valid_name(name) {
        return refused(board);
    }
    if find(board, name).is_some() {
        return refused(board);
    }
    let Some(unused) = find(board, b"") else {
        return refused(board);
    };
    Watched {
        board: put_row(board, unused, fresh_row(name)),
        answer: Ok(()),
    }
}

fn refused(board: Board) -> Watched
    ensures { result ≡ refused_with board }
{
    Watched {
        board,
        answer: Err(Refusal::BadList),
    }
}

// Reads the name that `rest` begins with, if it begins with the field of one: the name, and the bytes
// behind the field.
fn read_field(rest: &[u8]) -> Option<(&[u8], &[u8])>
    ensures { option_map (λ p. (p.0.now, p.1.now)) result ≡ field_of rest.now }
{
    let [NAME_TAG, high, low, value @ ..] = rest else {
        return None;
    };
    value.split_at_checked(usize::from(slices::pair(*high, *low)))
}

#![tactic(auto)]
// The rows of the board and what befalls them: ticks and updates.
ghost use Rattle.std.specs.Prelude.{◌≡◌, []};
ghost use Rattle.slices.specs.Same.{same_bytes};
ghost use Rattle.rows.specs.Names.{place_of};
ghost use Rattle.rows.specs.Rows.{row_count, row_name, row_names, tick_state, tick_row, tick_board, with_state, fresh_row, board_of, update_board, put_row, as_place};

use slices::FixedBytes;

// How many rows the board has, and so how many names it can watch.
pub const ROWS: usize = 40;

// How many bytes a row has for its name.
pub const NAME_ROOM: usize = 27;

// The age at which a row falls silent.
pub const SILENT_AGE: u8 = 30;

// What a row shows: nothing yet, a value and the ticks since it came, or nothing any more.
#[derive(Clone, Copy)]
pub enum State {
    Never,
    Current { value: i64, age: u8 },
    Silent,
}

// A row. An unused row has the empty name.
// No Option: an unused row is found by its empty name, as any row is by its own.
#[derive(Clone, Copy)]
pub struct Row {
    pub name: FixedBytes<NAME_ROOM>,
    pub state: State,
}

#[derive(Clone, Copy)]
pub struct Board {
    pub rows: [Row; ROWS],
}

// The board after a tick: each current row is older by 1, or silent.
pub fn tick(board: Board) -> Board
    ensures { result ≡ tick_board board }
{
    let mut next = board;
    for row in &mut next.rows {
        *row = tick_row(*row);
    }
    next
}

// The board that is lent, after a tick.
pub fn tick_in_place(board: &mut Board)
    ensures { board.new ≡ tick_board board.old }
{
    *board = tick(*board);
}

// The board after a tick for which it is lent: what the display runs each minute.
pub fn lent_tick(board: Board) -> Board
    ensures { result ≡ tick_board board }
{
    let mut own = board;
    tick_in_place(&mut own);
    own
}

fn tick_row(row: Row) -> Row
    ensures { result ≡ tick_row row }
{
    Row {
        state: tick_state(row.state),
        ..row
    }
}

fn tick_state(state: State) -> State
    ensures { result ≡ tick_state state }
{
    match state {
        State::Current { value, age } => {
            if age < SILENT_AGE - 1 {
                State::Current {
                    value,
                    age: age + 1,
                }
            } else {
                State::Silent
            }
        }
        State::Never => State::Never,
        State::Silent => State::Silent,
    }
}

// The place of the first row that has the name; an unused row has the empty name.
pub fn find(board: Board, name: &[u8]) -> Option<usize>
    ensures { result ≡ as_place (place_of name.now (row_names board)) }
{
    board.rows.iter().position(|row| has_name(*row, name))
}

fn has_name(row: Row, name: &[u8]) -> bool
    ensures { result ≡ same_bytes (row_name row) name.now }
{
    slices::same(row.name.as_slice(), name)
}

// The board with the value in the row at `place`, which becomes current with age 0. A place that
// the board does not have changes nothing.
pub fn update(board: Board, place: usize, value: i64) -> Board
    ensures { result ≡ update_board place value board }
{
    let mut next = board;
    if place < ROWS {
        next.rows[place].state = State::Current { value, age: 0 };
    }
    next
}

// The board with another row at `place`. A place that the board does not have changes nothing.
pub fn put_row(board: Board, place: usize, row: Row) -> Board
    ensures { result ≡ put_row place row board }
{
    let mut next = board;
    if place < ROWS {
        next.rows[place] = row;
    }
    next
}

// A row of that name that has had no update. Of a name that is too long the row has the first bytes.
pub fn fresh_row(name: &[u8]) -> Row
    ensures { result ≡ fresh_row name.now }
{
    Row {
        name: FixedBytes::of(name),
        state: State::Never,
    }
}

// The board of an empty watch list.
pub fn fresh() -> Board
    ensures { result ≡ board_of row_count [] }
{
    Board {
        rows: [fresh_row(b""); ROWS],
    }
}

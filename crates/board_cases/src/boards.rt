// Watch lists and packets, and the boards that they give.
use board::Done;
use cases::{line, print};
use rows::Board;

pub(crate) fn show_list(rt: &impl Print, line: &[u8], fields: &[u8]) {
    line::label(rt, line);
    let watched = board::watch_list(fields);
    match watched.answer {
        Ok(()) => print::text(rt, b": accepted"),
        Err(refusal) => print::number(rt, b": refused ", refusal.number() as u64),
    }
    print::text(rt, b"\n");
    let _ = reports::rows(rt, watched.board);
}

// What the packet does to a board that was updated one tick ago.
pub(crate) fn show_reading(rt: &impl Print, line: &[u8], packet: &[u8]) {
    line::label(rt, line);
    let reading = board::read(rows::tick(updated()), packet);
    match reading.answer {
        Ok(Done::Updated { row, id }) => {
            print::number(rt, b": row ", row as u64);
            print::number(rt, b" id ", id as u64);
        }
        Ok(Done::EndMark { id }) => print::number(rt, b": end mark, id ", id as u64),
        Err(refusal) => print::number(rt, b": refused ", refusal.number() as u64),
    }
    print::text(rt, b"\n");
    let _ = reports::rows(rt, reading.board);
}

// A board that watches h1 and h2, of which h1 has had the update of case 6.
pub(crate) fn updated() -> Board {
    let watched = board::watch_list(b"\x01\x00\x02h1\x01\x00\x02h2");
    case_6(watched.board)
}

pub(crate) fn case_6(board: Board) -> Board {
    board::read(board, b"\x01\x03\x00\x00\x01\x02h1\x16\x04\x00\x00\x0dz").board
}

#![tactic(auto)]
// The functions of the board, what they answer and what the rows show, by document 01: Known answers
// for the values of cases 7 to 9, for case 6 and for age 29, and Items and packets, The board and
// Refusal numbers for the rest.
//
// The keys: `v` the type and the bytes of a value item, `w` a watch list, `r` a packet read by a board
// of h1 and h2, `t` a number of ticks after the update of case 6, `u` the same and that update again.
// A write that fails is passed over, and the comparison of the output finds it.
mod boards;

use boards::{case_6, show_list, show_reading, updated};
use cases::{line, print};
use rows::Board;

pub fn run(rt: &impl Print, line: &[u8], bytes: &[u8]) {
    match line::key(line) {
        b'v' => show_value(rt, line, bytes),
        b'w' => show_list(rt, line, bytes),
        b'r' => show_reading(rt, line, bytes),
        b't' => show_board(rt, line, ticked(updated(), line::number(bytes))),
        b'u' => show_board(rt, line, case_6(ticked(updated(), line::number(bytes)))),
        _ => line::not_run(rt, line, b"no such key"),
    }
}

fn show_value(rt: &impl Print, line: &[u8], bytes: &[u8]) {
    let [kind, content @ ..] = bytes else {
        line::not_run(rt, line, b"too few bytes");
        return;
    };
    line::label(rt, line);
    match value::read_value(*kind, content) {
        Some(number) => {
            let _ = println!(rt; " {number}");
        }
        None => print::text(rt, b" bad\n"),
    }
}

fn ticked(board: Board, ticks: u64) -> Board {
    let mut next = board;
    for _ in 0..ticks {
        next = rows::lent_tick(next);
    }
    next
}

fn show_board(rt: &impl Print, line: &[u8], board: Board) {
    line::label(rt, line);
    print::text(rt, b"\n");
    let _ = reports::rows(rt, board);
}

#![tactic(auto)]
// The cutter of the ASHv3 line, by request C-21 and source document 002, 3.6 to 3.8: what a piece of the
// line brings, and the whole lent buffer after it.
//
// The keys: `n` takes a fresh cutter, `p` gives it a piece. The first byte of `p` is the length of the
// lent buffer, at most 80, and behind it stands the piece. Before each piece the buffer holds ee.
use cases::buffer::UNTOUCHED;
use cases::{line, print};
use cutter::state::{Cut, Cutter};

// The longest buffer that is lent.
const FRAME_ROOM: usize = 80;

pub fn run(rt: &impl Print, state: Cutter, line: &[u8], bytes: &[u8]) -> Cutter {
    match line::key(line) {
        b'n' => cutter::fresh(),
        b'p' => give(rt, state, line, bytes),
        _ => {
            line::not_run(rt, line, b"no such key");
            state
        }
    }
}

fn give(rt: &impl Print, state: Cutter, line: &[u8], bytes: &[u8]) -> Cutter {
    let mut frame = [UNTOUCHED; FRAME_ROOM];
    match line::room(rt, line, bytes, FRAME_ROOM, b"too long a buffer") {
        Some((room, piece)) => cut(rt, state, line, piece, &mut frame[..room]),
        None => state,
    }
}

fn cut(rt: &impl Print, state: Cutter, line: &[u8], piece: &[u8], frame: &mut [u8]) -> Cutter {
    let brought = cutter::cut(state, piece, frame);
    line::label(rt, line);
    show(rt, brought);
    print::lent(rt, b" ", frame);
    print::text(rt, b"\n");
    brought.cutter
}

fn show(rt: &impl Print, brought: Cut) {
    let taken = brought.taken as u64;
    match brought.answer {
        Err(refusal) => {
            print::number(rt, b": refused ", refusal.number() as u64);
            print::number(rt, b" taken ", taken);
        }
        Ok(None) => print::number(rt, b": taken ", taken),
        Ok(Some(length)) => {
            print::number(rt, b": taken ", taken);
            print::number(rt, b" frame ", length as u64);
        }
    }
}

#![tactic(auto)]
// The file receiver, what it answers, the transfer after it and the lent buffer, by document 01: File
// fragments, and Refusal numbers for the order of refusals.
//
// The keys: `s` starts a transfer of a location, `g` gives it a packet, `a` gives a packet alone, to a
// fresh transfer of the location `loc`, `b` says how many bytes the lent buffer has, `n` puts the next
// offset, as a transfer that came so far would have it. Where a transfer starts, the buffer holds ee.
mod report;
mod steps;

use cases::line;
pub use steps::{FILE_MAX, Receiving, first};

pub fn run(
    rt: &impl Print,
    state: Receiving,
    line: &[u8],
    bytes: &[u8],
    file: &mut [u8],
) -> Receiving {
    let key = line::key(line);
    match key {
        b's' => steps::start(rt, state, line, bytes, file),
        b'g' => steps::give(rt, state, line, bytes, file),
        b'a' => steps::give_alone(rt, state, line, bytes, file),
        b'b' => steps::with_room(state, bytes),
        b'n' => steps::with_next(state, bytes),
        _ => no_key(rt, state, line),
    }
}

fn no_key(rt: &impl Print, state: Receiving, line: &[u8]) -> Receiving {
    line::not_run(rt, line, b"no such key");
    state
}

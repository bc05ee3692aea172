#![tactic(auto)]
// Runs the proved functions on the cases of the file `stdin`, and prints what they answer. That is
// compared with the file `stdout`, which has what the papers say of them.
//
// A line `= packet` names the subject of the lines behind it, and is printed; each subject starts
// afresh. A line that begins with `#` is a heading, and an empty line says nothing. Each other line is
// a case: the crate of its subject says which keys there are. A line that is not run is told.
mod subjects;

use cases::{input, line, print};
use subjects::Subject;
use transfer_cases::FILE_MAX;

// The input is shorter than this, or is not run.
const INPUT_ROOM: usize = 0x40000;

// The bytes of a line are fewer than this, or it is not run: 41 of the longest names have 1,230.
const CASE_ROOM: usize = 1231;

fn main(rt: HostRuntime) {
    let mut text = [0u8; INPUT_ROOM];
    let length = input::read_full(&mut rt.stdin(), &mut text);
    let mut file = [0u8; FILE_MAX];
    if length == INPUT_ROOM {
        print::text(&rt, b"the input is too long\n");
        return;
    }
    run_all(&rt, &text[..length], &mut file);
}

fn run_all(rt: &impl Print, text: &[u8], file: &mut [u8]) {
    let mut subject = Subject::Nothing;
    let mut at: usize = 0;
    // A place, not a split: what a line is stands in the contracts of cases::line, and a closure here has none.
    while at < text.len() {
        subject = run(rt, subject, line::at(text, at), file);
        at = line::behind(text, at);
    }
}

fn run(rt: &impl Print, subject: Subject, line: &[u8], file: &mut [u8]) -> Subject {
    let mut bytes = [0u8; CASE_ROOM];
    let count = line::bytes(line, &mut bytes);
    if count == CASE_ROOM {
        line::not_run(rt, line, b"too long");
        return subject;
    }
    run_line(rt, subject, line, &bytes[..count], file)
}

fn run_line(
    rt: &impl Print,
    subject: Subject,
    line: &[u8],
    bytes: &[u8],
    file: &mut [u8],
) -> Subject {
    match line::key(line) {
        b'#' | 0 => subject,
        b'=' => subjects::next(rt, line),
        _ => subjects::run(rt, subject, line, bytes, file),
    }
}

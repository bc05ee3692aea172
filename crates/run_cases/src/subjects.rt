// What the cases are about, and what one leaves behind for the next.
use cases::{line, print};
use cutter::state::Cutter;
use display::Display;
use session_cases::Sessions;
use transfer_cases::Receiving;

// A subject, with what its cases leave behind.
#[derive(Clone, Copy)]
pub enum Subject {
    Nothing,
    Packet,
    Ash,
    Session(Sessions),
    Cutter(Cutter),
    Board,
    Transfer(Receiving),
    Display(Display),
}

// The subject that a line names, from its beginning.
pub(crate) fn next(rt: &impl Print, line: &[u8]) -> Subject {
    print::text(rt, line);
    print::text(rt, b"\n");
    fresh(line)
}

fn fresh(line: &[u8]) -> Subject {
    match line {
        b"= packet" => Subject::Packet,
        b"= ash" => Subject::Ash,
        b"= session" => Subject::Session(session_cases::first()),
        b"= cutter" => Subject::Cutter(cutter::fresh()),
        b"= board" => Subject::Board,
        b"= transfer" => Subject::Transfer(transfer_cases::first()),
        b"= display" => Subject::Display(display_cases::fresh_display()),
        _ => Subject::Nothing,
    }
}

// Runs a case, and answers its subject as the next case finds it.
pub(crate) fn run(
    rt: &impl Print,
    subject: Subject,
    line: &[u8],
    bytes: &[u8],
    file: &mut [u8],
) -> Subject {
    match subject {
        Subject::Nothing => line::not_run(rt, line, b"no such subject"),
        Subject::Packet => packet_cases::run(rt, line, bytes),
        Subject::Ash => ash_cases::run(rt, line, bytes),
        Subject::Board => board_cases::run(rt, line, bytes),
        Subject::Session(sessions) => {
            return Subject::Session(session_cases::run(rt, sessions, line, bytes));
        }
        Subject::Cutter(cutter) => {
            return Subject::Cutter(cutter_cases::run(rt, cutter, line, bytes));
        }
        Subject::Transfer(receiving) => {
            return Subject::Transfer(transfer_cases::run(rt, receiving, line, bytes, file));
        }
        Subject::Display(display) => {
            return Subject::Display(display_cases::run(rt, display, line, bytes));
        }
    }
    subject
}

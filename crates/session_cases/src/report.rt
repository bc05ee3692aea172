// Answers and sessions as text.
use cases::{line, print};
use session::counters::OFC;
use session::state::{Done, Held, Outcome, Payload, Session};

pub(crate) fn show_answer(rt: &impl Print, line: &[u8], outcome: Outcome) {
    line::label(rt, line);
    match outcome.answer {
        Err(refusal) => print::number(rt, b": refused ", refusal.number() as u64),
        Ok(
            Done {
                sent,
                payload,
                dropped,
            },
        ) => {
            print::number(rt, b": sent ", sent as u64);
            print::number(rt, b" payload ", payload as u64);
            print::text(rt, b" dropped");
            show_dropped(rt, dropped);
        }
    }
}

// The numbers of the frames that were dropped, oldest first.
fn show_dropped(rt: &impl Print, dropped: Held) {
    match dropped {
        Held::Nothing => (),
        Held::One(older) => show_number(rt, older),
        Held::Two(older, newer) => {
            show_number(rt, older);
            show_number(rt, newer);
        }
    }
}

fn show_number(rt: &impl Print, number: OFC) {
    print::number(rt, b" ", number.0 as u64);
}

pub(crate) fn show_session(rt: &impl Print, line: &[u8], session: Session) {
    line::label(rt, line);
    print::number(rt, b": counter ", session.counter.0 as u64);
    print::number(rt, b" good ", session.good.0 as u64);
    if session.awaiting {
        print::text(rt, b" awaiting");
    }
    show_held(rt, session);
    print::text(rt, b"\n");
}

// The frames that are held, oldest first.
fn show_held(rt: &impl Print, session: Session) {
    match session.held {
        Held::Nothing => (),
        Held::One(number) => show_frame(rt, number, session.older),
        Held::Two(first, second) => {
            show_frame(rt, first, session.older);
            show_frame(rt, second, session.newer);
        }
    }
}

// A held frame: its number, and its data before stuffing.
fn show_frame(rt: &impl Print, number: OFC, payload: Payload) {
    print::number(rt, b" held ", number.0 as u64);
    print::hex(rt, b" ", payload.as_slice());
}

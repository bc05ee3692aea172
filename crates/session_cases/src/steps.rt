// What a line does to the session.
ghost use Rattle.std.specs.Prelude.{◌≡◌};
ghost use Rattle.session.specs.State.{fresh_session};

use crate::report;
use cases::buffer::UNTOUCHED;
use cases::{line, print};
use session::state::{Outcome, Session, fresh};
use session::{ours, receiving};

// The longest output that is lent.
const OUTPUT_MAX: usize = 160;

// The longest payload buffer that is lent.
const PAYLOAD_ROOM_MAX: usize = 80;

// A session, and one that was marked.
#[derive(Clone, Copy)]
pub struct Sessions {
    session: Session,
    marked: Session,
}

// Fresh ones.
pub fn first() -> Sessions
    ensures { (result.session ≡ fresh_session) × (result.marked ≡ fresh_session) }
{
    Sessions {
        session: fresh(),
        marked: fresh(),
    }
}

pub(crate) fn begin(state: Sessions) -> Sessions
    ensures { (result.session ≡ fresh_session) × (result.marked ≡ state.marked) }
{
    Sessions {
        session: fresh(),
        ..state
    }
}

pub(crate) fn mark(state: Sessions) -> Sessions
    ensures { (result.session ≡ state.session) × (result.marked ≡ state.session) }
{
    Sessions {
        marked: state.session,
        ..state
    }
}

pub(crate) fn go_back(state: Sessions) -> Sessions
    ensures { (result.session ≡ state.marked) × (result.marked ≡ state.marked) }
{
    Sessions {
        session: state.marked,
        ..state
    }
}

pub(crate) fn show(rt: &impl Print, state: Sessions, line: &[u8]) -> Sessions {
    report::show_session(rt, line, state.session);
    state
}

pub(crate) fn run_event(rt: &impl Print, state: Sessions, line: &[u8], bytes: &[u8]) -> Sessions {
    let mut output = [UNTOUCHED; OUTPUT_MAX];
    let too_long = b"too long an output";
    match line::room(rt, line, bytes, OUTPUT_MAX, too_long) {
        Some((room, rest)) => Sessions {
            session: take_event(rt, state.session, line, rest, &mut output[..room]),
            ..state
        },
        None => state,
    }
}

fn take_event(
    rt: &impl Print,
    session: Session,
    line: &[u8],
    bytes: &[u8],
    output: &mut [u8],
) -> Session {
    match line::key(line) {
        b'r' => sent(rt, line, ours::reset(session, output), output),
        b't' => sent(rt, line, ours::timeout(session, output), output),
        b's' => sent(rt, line, ours::send(session, bytes, output), output),
        _ => receive(rt, session, line, bytes, output),
    }
}

// Prints what an event of our side gave; the session after it.
fn sent(rt: &impl Print, line: &[u8], outcome: Outcome, output: &[u8]) -> Session {
    report::show_answer(rt, line, outcome);
    print::lent(rt, b" ", output);
    print::text(rt, b"\n");
    outcome.session
}

fn receive(
    rt: &impl Print,
    session: Session,
    line: &[u8],
    bytes: &[u8],
    output: &mut [u8],
) -> Session {
    let mut payload = [UNTOUCHED; PAYLOAD_ROOM_MAX];
    let too_long = b"too long a payload";
    match line::room(rt, line, bytes, PAYLOAD_ROOM_MAX, too_long) {
        Some((room, frame)) => take_frame(rt, session, line, frame, output, &mut payload[..room]),
        None => session,
    }
}

fn take_frame(
    rt: &impl Print,
    session: Session,
    line: &[u8],
    frame: &[u8],
    output: &mut [u8],
    payload: &mut [u8],
) -> Session {
    let outcome = receiving::receive(session, frame, output, payload);
    report::show_answer(rt, line, outcome);
    print::lent(rt, b" ", output);
    print::lent(rt, b" ", payload);
    print::text(rt, b"\n");
    outcome.session
}

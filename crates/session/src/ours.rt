// The events of our side: reset, send and timeout.
ghost use Rattle.std.specs.Prelude.{◌≤◌, length};
ghost use Rattle.session.specs.State.{output_room};
ghost use Rattle.session.specs.Events.{reset_of, send_of, send_data, timeout_of};
ghost use Rattle.session.specs.Results.{SendsAs};

use crate::OUTPUT_ROOM;
use crate::control::{Kind, control_byte};
use crate::counters::{AFC, next_of_ours};
use crate::frames::{put_empty, put_held};
use crate::holding::{hold, holds_two, restart};
use crate::state::{Held, NONE, Outcome, Session, finish, refuse};
use ash::writer::write_frame;
use refusals::Refusal;

// Our RESET, allowed at any time: what is held is dropped, and the RESET ACK is awaited, anew too.
// An output of under 135 bytes is refusal 7, here and in the other events.
#[tactic(auto, unfolding(crate::specs::Events::reset_of, crate::specs::Frames::bytes_of))]
pub fn reset(session: Session, output: &mut [u8]) -> Outcome
    ensures { SendsAs session (reset_of session (length output.old)) output.old result output.new }
{
    if output.len() < OUTPUT_ROOM {
        return refuse(session, Refusal::ShortOutput);
    }
    let next = restart(session, AFC(NONE), true);
    let sent = put_empty(Kind::Reset, next, output, 0);
    finish(next, sent, 0, session.held)
}

// Sends data in an ACK of the next number, and holds it. While RESET ACK is awaited this is refusal
// 28, with two frames held 29, for data that is empty or over 57 bytes as sent 22.
#[tactic(auto, unfolding(crate::specs::Events::send_of, crate::specs::Frames::bytes_of))]
pub fn send(session: Session, payload: &[u8], output: &mut [u8]) -> Outcome
    ensures { SendsAs session (send_of session payload.now (length output.old)) output.old result output.new }
{
    if output.len() < OUTPUT_ROOM {
        return refuse(session, Refusal::ShortOutput);
    }
    if session.awaiting {
        return refuse(session, Refusal::ResetAckAwaited);
    }
    if holds_two(session.held) {
        return refuse(session, Refusal::TwoFramesHeld);
    }
    if payload.is_empty() {
        return refuse(session, Refusal::BadLength);
    }
    send_data(session, payload, output)
}

fn send_data(session: Session, payload: &[u8], output: &mut [u8]) -> Outcome
    requires { output_room ≤ length output.old }
    ensures { SendsAs session (send_data session payload.now) output.old result output.new }
{
    let number = next_of_ours(session.counter);
    let control = control_byte(Kind::Ack, number, session.good);
    match write_frame(control, payload, output) {
        Err(refusal) => refuse(session, refusal),
        Ok(length) => {
            let next = hold(session, number, payload);
            finish(next, length, 0, Held::Nothing)
        }
    }
}

// 500 ms have passed without an acknowledgement: what is held is sent again.
#[tactic(auto, unfolding(crate::specs::Events::timeout_of, crate::specs::Frames::bytes_of))]
pub fn timeout(session: Session, output: &mut [u8]) -> Outcome
    ensures { SendsAs session (timeout_of session (length output.old)) output.old result output.new }
{
    if output.len() < OUTPUT_ROOM {
        return refuse(session, Refusal::ShortOutput);
    }
    let sent = put_held(session, output);
    finish(session, sent, 0, Held::Nothing)
}

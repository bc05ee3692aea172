// A frame of the peer's.
ghost use Rattle.std.specs.Prelude.{◌≡◌, length};
ghost use Rattle.session.specs.Results.{given, SendsAs, HandsAs};
ghost use Rattle.session.specs.Receiving.{good_reset, good_reset_ack, reset_taken, reset_ack_taken, frame_taken, receive_of};

use crate::OUTPUT_ROOM;
use crate::answers::{answer_data, answer_nack};
use crate::control::{Control, Kind, read_control};
use crate::counters::{AFC, OFC};
use crate::frames::put_empty;
use crate::holding::{record_good, restart};
use crate::replies::take_reply;
use crate::state::{FIRST, Held, NONE, Outcome, SECOND, Session, finish, refuse};
use ash::PAYLOAD_MAX;
use ash::reader::{Frame, read_frame};
use refusals::Refusal;

// Takes the bytes of one frame. What goes out for it is put at the start of `output`, good data at
// the start of `payload`. An output of under 135 bytes or a payload of under 57 is refusal 7; a frame
// at fault is none, but gets a NACK.
#[tactic(auto, unfolding(crate::specs::Receiving::receive_of, crate::specs::Frames::bytes_of))]
pub fn receive(session: Session, frame: &[u8], output: &mut [u8], payload: &mut [u8]) -> Outcome
    ensures { HandsAs session (receive_of session frame.now (length output.old) (length payload.old)) output.old payload.old result output.new payload.new }
{
    if output.len() < OUTPUT_ROOM {
        return refuse(session, Refusal::ShortOutput);
    }
    if payload.len() < PAYLOAD_MAX {
        return refuse(session, Refusal::ShortOutput);
    }
    let mut read = [0u8; PAYLOAD_MAX];
    match read_frame(frame, &mut read) {
        Err(_) => answer_nack(session, output),
        Ok(Frame { control, length }) => {
            let said = read_control(control);
            take_frame(session, said, slices::first(&read, length), output, payload)
        }
    }
}

// A frame with what its control byte says and its data.
// `output` and `handed` stay two parameters here and below: a struct of both would be no plainer, since
// the public call lends two.
#[tactic(auto, using(crate::proofs::TakenLaws::reset_hands_none))]
fn take_frame(
    session: Session,
    control: Control,
    payload: &[u8],
    output: &mut [u8],
    handed: &mut [u8],
) -> Outcome
    ensures { HandsAs session (given (frame_taken session control payload.now)) output.old handed.old result output.new handed.new }
{
    match control.kind {
        Kind::Reset => take_reset(session, control, payload.len(), output),
        Kind::ResetAck => take_reset_ack(session, control, payload, output, handed),
        Kind::Ack => take_reply(session, control, false, payload, output, handed),
        Kind::Nack => take_reply(session, control, true, payload, output, handed),
    }
}

// The peer's RESET: 1/0 without data, or else it gets a NACK.
#[tactic(auto, unfolding(crate::specs::Receiving::reset_taken, crate::specs::Frames::bytes_of))]
fn take_reset(session: Session, control: Control, length: usize, output: &mut [u8]) -> Outcome
    ensures { SendsAs session (given (reset_taken session control length)) output.old result output.new }
{
    if !is_reset(control, length) {
        return answer_nack(session, output);
    }
    let next = restart(session, AFC(FIRST), session.awaiting);
    let sent = put_empty(Kind::ResetAck, next, output, 0);
    finish(next, sent, 0, session.held)
}

fn is_reset(control: Control, length: usize) -> bool
    ensures { result ≡ good_reset control length }
{
    length == 0 && control.number == AFC(FIRST) && control.acknowledged == OFC(NONE)
}

// The answer to our RESET, if it is awaited: 1/1 without data or 2/1 with data, or else it gets a
// NACK. One that is not awaited is ignored.
#[tactic(auto, unfolding(crate::specs::Receiving::reset_ack_taken, crate::specs::Frames::bytes_of))]
fn take_reset_ack(
    session: Session,
    control: Control,
    payload: &[u8],
    output: &mut [u8],
    handed: &mut [u8],
) -> Outcome
    ensures { HandsAs session (given (reset_ack_taken session control payload.now)) output.old handed.old result output.new handed.new }
{
    if !session.awaiting {
        return finish(session, 0, 0, Held::Nothing);
    }
    if !is_reset_ack(control, payload.len()) {
        return answer_nack(session, output);
    }
    let next = record_good(session, control.number);
    answer_data(next, payload, 0, output, handed)
}

fn is_reset_ack(control: Control, length: usize) -> bool
    ensures { result ≡ good_reset_ack control length }
{
    let number = if length == 0 { FIRST } else { SECOND };
    control.acknowledged == OFC(FIRST) && control.number == AFC(number)
}

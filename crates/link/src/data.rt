// A data frame at its closing flag: it is answered, and handed out unless it came again.
ghost use Rattle.std.specs.Prelude.{◌≡◌};
ghost use Rattle.link.specs.Closing.{repeats, data_frame};
ghost use Rattle.link.specs.Steps.{ClosesAs, AcknowledgesAs};

use crate::closing::{Closed, State, counted};
use crate::counts::Event;
use crate::receiver::{Answer, REPLY_ROOM};
use frame::ACKNOWLEDGEMENT;
use frame::writer::write_frame;

// Answers a data frame, and hands its payload out unless it came again.
pub(crate) fn take_data(
    sequence: u8,
    payload: &[u8],
    state: State,
    reply: &mut [u8; REPLY_ROOM],
    packet: &mut [u8],
) -> Closed
    ensures { ClosesAs (data_frame sequence payload.now state.last state.counts) reply.old packet.old result reply.new packet.new }
{
    let length = acknowledge(sequence, reply);
    if repeated(state.last, sequence) {
        return Closed {
            state: counted(state, Event::Again),
            answer: Answer::Again(length),
        };
    }
    slices::put(packet, 0, payload);
    Closed {
        state: State {
            last: Some(sequence),
            ..counted(state, Event::New)
        },
        answer: Answer::New {
            reply: length,
            packet: payload.len(),
        },
    }
}

// Whether a data frame came again: its sequence is that of the last one, and not 0.
fn repeated(last: Option<u8>, sequence: u8) -> bool
    ensures { result ≡ repeats last sequence }
{
    sequence != 0 && last == Some(sequence)
}

// Puts the acknowledgement of a sequence at the start of `reply`, and answers its length.
fn acknowledge(sequence: u8, reply: &mut [u8; REPLY_ROOM]) -> usize
    ensures { AcknowledgesAs sequence reply.old result reply.new }
{
    // No refusal is lost: nine bytes are room for every acknowledgement, so the writer refuses none.
    write_frame(ACKNOWLEDGEMENT, sequence, b"", reply).unwrap_or(0)
}

// A frame at its closing flag: it is refused, heard, or answered and handed out.
ghost use Rattle.std.specs.Prelude.{◌≡◌};
ghost use Rattle.frame.specs.Content.{no_place};
ghost use Rattle.link.specs.Closing.{refused_frame, acknowledgement_frame, frame_outcome, close_of};
ghost use Rattle.link.specs.Counts.{count_of};
ghost use Rattle.link.specs.Steps.{closed_by, ClosesAs};

use crate::counts::{Counts, Event, count};
use crate::data::take_data;
use crate::reader::Ended;
use crate::receiver::{Answer, REPLY_ROOM};
use frame::content::{Fault, judge};
use frame::{ACKNOWLEDGEMENT, DATA, HEADER_SIZE, NO_PLACE};
use refusals::Refusal;

// What a frame goes by and leaves behind: the sequence of the last data frame, and the counts.
#[derive(Clone, Copy)]
pub struct State {
    pub last: Option<u8>,
    pub counts: Counts,
}

// What a closed frame leaves, and its answer.
#[derive(Clone, Copy)]
pub struct Closed {
    pub state: State,
    pub answer: Answer,
}

// What a flag ended, with the content that stands in front of it. `reply` and `packet` stay two
// parameters: a struct of both would be no plainer, since the public call lends two.
pub(crate) fn close(
    ended: Ended,
    content: &[u8],
    state: State,
    reply: &mut [u8; REPLY_ROOM],
    packet: &mut [u8],
) -> Closed
    ensures { ClosesAs (close_of ended content.now state.last state.counts) reply.old packet.old result reply.new packet.new }
{
    match ended {
        Ok(None) => Closed {
            state,
            answer: Answer::Nothing,
        },
        Ok(Some(length)) => {
            let whole = slices::first(content, length);
            take_frame(whole, state, reply, packet)
        }
        Err(fault) => refuse(fault, state),
    }
}

// Counts a frame that is refused, and answers why and where.
fn refuse(fault: Fault, state: State) -> Closed
    ensures { result ≡ closed_by (refused_frame fault.refusal fault.place state.last state.counts) }
{
    Closed {
        state: counted(state, Event::Refused(fault.refusal.number())),
        answer: Answer::Refused(fault),
    }
}

// Refuses a frame for its type, which is at no place.
fn refuse_kind(refusal: Refusal, state: State) -> Closed
    ensures { result ≡ closed_by (refused_frame refusal no_place state.last state.counts) }
{
    let fault = Fault {
        refusal,
        place: NO_PLACE,
    };
    refuse(fault, state)
}

// Judges whole content: refusals 3 and 4, then 5 and 6 by its type.
fn take_frame(
    content: &[u8],
    state: State,
    reply: &mut [u8; REPLY_ROOM],
    packet: &mut [u8],
) -> Closed
    ensures { ClosesAs (frame_outcome content.now state.last state.counts) reply.old packet.old result reply.new packet.new }
{
    match judge(content) {
        Err(fault) => refuse(fault, state),
        Ok(frame) => match frame.kind {
            DATA => {
                let payload = &content[HEADER_SIZE..frame.length + HEADER_SIZE];
                take_data(frame.sequence, payload, state, reply, packet)
            }
            ACKNOWLEDGEMENT => hear(frame.sequence, frame.length, state),
            _ => refuse_kind(Refusal::UnknownType, state),
        },
    }
}

// An acknowledgement is heard; one with a payload is refusal 6.
fn hear(sequence: u8, length: usize, state: State) -> Closed
    ensures { result ≡ closed_by (acknowledgement_frame sequence length state.last state.counts) }
{
    if length != 0 {
        return refuse_kind(Refusal::LoadedAcknowledgement, state);
    }
    Closed {
        state: counted(state, Event::Heard),
        answer: Answer::Heard(sequence),
    }
}

// The state with one event counted.
pub(crate) fn counted(state: State, event: Event) -> State
    ensures { result ≡ record { last = state.last; counts = count_of event state.counts } }
{
    State {
        counts: count(state.counts, event),
        ..state
    }
}

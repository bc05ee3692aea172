// The events of the sender: a send, a timeout, and an acknowledgement that was heard.
ghost use Rattle.std.specs.Prelude.{◌≡◌, ◌<◌, length};
ghost use Rattle.sender.specs.State.{acknowledged};
ghost use Rattle.sender.specs.Events.{sent_next, send_of, repeats_max, sent_again, timeout_of, SendsAs};

use crate::state::{Answer, Held, Outcome, Sender, free, hold};
use frame::DATA;
use frame::writer::write_frame;
use refusals::Refusal;

// How often a frame is sent again before it is dropped.
const REPEATS_MAX: u8 = 2;

// Sends a payload in a data frame of the next sequence, and holds it. While a frame is still waiting
// this is refusal 25, for a payload over 383 bytes 8, for an output too short for the frame 7.
#[tactic(auto, unfolding(crate::specs::Events::send_of))]
pub fn send(sender: Sender, payload: &[u8], output: &mut [u8]) -> Outcome
    ensures { SendsAs (send_of sender payload.now (length output.old)) output.old result output.new }
{
    if sender.held.is_some() {
        return Outcome {
            sender,
            answer: Answer::Refused(Refusal::FrameWaiting),
        };
    }
    send_next(sender, payload, output)
}

// The frame of the next sequence.
fn send_next(sender: Sender, payload: &[u8], output: &mut [u8]) -> Outcome
    ensures { SendsAs (sent_next sender payload.now (length output.old)) output.old result output.new }
{
    let sequence = sender.next;
    match write_frame(DATA, sequence, payload, output) {
        Ok(length) => Outcome {
            sender: hold(sender, payload),
            answer: Answer::Sent { sequence, length },
        },
        Err(refusal) => Outcome {
            sender,
            answer: Answer::Refused(refusal),
        },
    }
}

// No acknowledgement came in time: the held frame is sent again the first two times, where an output
// too short for it is refusal 7; the third time it is dropped and reported. With nothing held nothing
// happens.
#[tactic(auto, unfolding(crate::specs::Events::timeout_of))]
pub fn timeout(sender: Sender, output: &mut [u8]) -> Outcome
    ensures { SendsAs (timeout_of sender (length output.old)) output.old result output.new }
{
    match sender.held {
        None => Outcome {
            sender,
            answer: Answer::Nothing,
        },
        Some(held) if held.repeats < REPEATS_MAX => send_again(sender, held, output),
        Some(held) => Outcome {
            sender: free(sender),
            answer: Answer::Dropped(held.sequence),
        },
    }
}

// The held frame once more.
fn send_again(sender: Sender, held: Held, output: &mut [u8]) -> Outcome
    requires { held.repeats < repeats_max }
    ensures { SendsAs (sent_again sender held.sequence held.repeats (length output.old)) output.old result output.new }
{
    let sequence = held.sequence;
    match write_frame(DATA, sequence, sender.payload.as_slice(), output) {
        Ok(length) => {
            let again = Held {
                repeats: held.repeats + 1,
                ..held
            };
            Outcome {
                sender: Sender {
                    held: Some(again),
                    ..sender
                },
                answer: Answer::Repeated { sequence, length },
            }
        }
        Err(refusal) => Outcome {
            sender,
            answer: Answer::Refused(refusal),
        },
    }
}

// An acknowledgement was heard: one of its sequence frees the held frame, any other changes nothing.
pub fn acknowledge(sender: Sender, sequence: u8) -> Sender
    ensures { result ≡ acknowledged sender sequence }
{
    match sender.held {
        Some(held) if held.sequence == sequence => free(sender),
        _ => sender,
    }
}

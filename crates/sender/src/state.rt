// The sender between two events, and what an event gives.
ghost use Rattle.std.specs.Prelude.{◌≡◌};
ghost use Rattle.sender.specs.State.{next_sequence, no_payload, fresh_sender, holding, freed};

use frame::PAYLOAD_MAX;
use refusals::Refusal;
use slices::FixedBytes;

// The payload of the held frame. Its other bytes are zeros, and all of them where nothing is held.
pub type Payload = FixedBytes<PAYLOAD_MAX>;

// The frame that waits for its acknowledgement, and how often it was sent again.
#[derive(Clone, Copy)]
pub struct Held {
    pub sequence: u8,
    pub repeats: u8,
}

// `next` is the sequence of the next frame; `payload` is the held frame's.
// The payload stands beside `held`, not in it: a match copies what is held, and a payload is 383 bytes.
#[derive(Clone, Copy)]
pub struct Sender {
    pub next: u8,
    pub held: Option<Held>,
    pub payload: Payload,
}

// What an event gave: nothing; a refusal; a frame sent for the first time or again, with its
// length in the output; or the report that a frame was dropped.
// One enum, not a Result: whoever calls tells the five cases apart in one match, and a refusal is
// one of them.
#[derive(Clone, Copy)]
pub enum Answer {
    Nothing,
    Refused(Refusal),
    Sent { sequence: u8, length: usize },
    Repeated { sequence: u8, length: usize },
    Dropped(u8),
}

#[derive(Clone, Copy)]
pub struct Outcome {
    pub sender: Sender,
    pub answer: Answer,
}

// A sender before its first frame.
#[tactic(auto, unfolding(crate::specs::State::fresh_sender))]
pub fn fresh() -> Sender
    ensures { result ≡ fresh_sender }
{
    Sender {
        next: 0,
        held: None,
        payload: no_payload(),
    }
}

fn no_payload() -> Payload
    ensures { result ≡ no_payload }
{
    FixedBytes::of(b"")
}

// The sequence behind another one: 1 behind 255, since 0 is the first alone.
fn next_sequence(sequence: u8) -> u8
    ensures { result ≡ next_sequence sequence }
{
    sequence.checked_add(1).unwrap_or(1)
}

// The sender behind its next frame, which it holds.
#[tactic(auto, unfolding(crate::specs::State::payload_of))]
pub(crate) fn hold(sender: Sender, payload: &[u8]) -> Sender
    ensures { result ≡ holding sender payload.now }
{
    Sender {
        next: next_sequence(sender.next),
        held: Some(Held {
            sequence: sender.next,
            repeats: 0,
        }),
        payload: FixedBytes::of(payload),
    }
}

// The sender with nothing held. The sequence of what it held is spent.
pub(crate) fn free(sender: Sender) -> Sender
    ensures { result ≡ freed sender }
{
    Sender {
        held: None,
        payload: no_payload(),
        ..sender
    }
}

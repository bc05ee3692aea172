// What the display sends itself: a send and a timeout concern its sender alone.
ghost use Rattle.std.specs.Prelude.{◌≡◌, length};
ghost use Rattle.sender.specs.Events.{send_of, timeout_of};
ghost use Rattle.display.specs.Sending.{sent_by, SendsAs};

use crate::Display;

// What a send or a timeout gave.
#[derive(Clone, Copy)]
pub struct Outgoing {
    pub display: Display,
    pub answer: sender::Answer,
}

// Sends a payload in a data frame, and holds it until the module has acknowledged it. While a frame is
// still waiting this is refusal 25, for a payload over 383 bytes 8, for an output too short for the
// frame 7.
pub fn send(display: Display, payload: &[u8], output: &mut [u8]) -> Outgoing
    ensures { SendsAs display (send_of display.sender payload.now (length output.old)) output.old result output.new }
{
    with_sender(display, sender::send(display.sender, payload, output))
}

// No acknowledgement came in time: the held frame is sent again the first two times, where an output
// too short for it is refusal 7; the third time it is dropped and reported. With nothing held nothing
// happens.
pub fn timeout(display: Display, output: &mut [u8]) -> Outgoing
    ensures { SendsAs display (timeout_of display.sender (length output.old)) output.old result output.new }
{
    with_sender(display, sender::timeout(display.sender, output))
}

// The display with the sender that an event left.
fn with_sender(display: Display, outcome: sender::Outcome) -> Outgoing
    ensures { result ≡ sent_by display outcome }
{
    Outgoing {
        display: Display {
            sender: outcome.sender,
            ..display
        },
        answer: outcome.answer,
    }
}

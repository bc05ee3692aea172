// The frames that an event sends, one behind the other in the lent output.
ghost use Rattle.std.specs.Prelude.{◌≡◌, [], ◌∷◌, length};
ghost use Rattle.slices.specs.FixedBytes.{shown};
ghost use Rattle.slices.specs.Put.{put_at};
ghost use Rattle.session.specs.Frames.{empty_frame, data_frame, repeats_of, frame_bytes};
ghost use Rattle.session.specs.Results.{PutsAs};

use crate::control::{Kind, control_byte};
use crate::counters::{AFC, OFC};
use crate::state::{Held, Payload, Session};
use ash::FRAME_MAX;
use ash::writer::write_frame;

// Puts an empty frame with the session's counters into `output` from the place `at` on, and answers
// its length.
#[tactic(auto, unfolding(crate::specs::Frames::bytes_of))]
pub(crate) fn put_empty(kind: Kind, session: Session, output: &mut [u8], at: usize) -> usize
    ensures { PutsAs (empty_frame kind session ∷ []) output.old at result output.new }
{
    let control = control_byte(kind, session.counter, session.good);
    put_frame(control, b"", output, at)
}

// Puts the held frames again, oldest first, at the start of `output`, and answers their length.
#[tactic(auto, unfolding(crate::specs::Frames::bytes_of))]
pub(crate) fn put_held(session: Session, output: &mut [u8]) -> usize
    ensures { PutsAs (repeats_of session) output.old 0 result output.new }
{
    let Session {
        good,
        older,
        newer,
        ..
    } = session;
    match session.held {
        Held::Nothing => 0,
        Held::One(number) => put_data(number, good, older, output, 0),
        Held::Two(first, second) => {
            let before = put_data(first, good, older, output, 0);
            let behind = put_data(second, good, newer, output, before);
            before + behind
        }
    }
}

// Puts a held frame, in an ACK with its own number.
#[tactic(auto, unfolding(crate::specs::Frames::bytes_of))]
fn put_data(number: OFC, good: AFC, payload: Payload, output: &mut [u8], at: usize) -> usize
    ensures { PutsAs (data_frame number good (shown payload) ∷ []) output.old at result output.new }
{
    let control = control_byte(Kind::Ack, number, good);
    put_frame(control, payload.as_slice(), output, at)
}

// Puts the frame of a control byte and data. Data that no frame takes puts none.
#[tactic(auto, unfolding(crate::specs::Frames::frame_bytes))]
fn put_frame(control: u8, payload: &[u8], output: &mut [u8], at: usize) -> usize
    ensures { (result ≡ length (frame_bytes control payload.now)) × (output.new ≡ put_at output.old at (frame_bytes control payload.now)) }
{
    let mut frame = [0u8; FRAME_MAX];
    match write_frame(control, payload, &mut frame) {
        Ok(length) => {
            slices::put(output, at, slices::first(&frame, length));
            length
        }
        Err(_) => 0,
    }
}

#![tactic(auto)]
// The cutter of the ASHv3 line (document 02, C-21; source document 002, 3.6 to 3.8): it takes the
// line's bytes in pieces of any size and hands its frames on, one at a time, to the reader of C-11.
pub mod state;
mod turn;
mod walk;

ghost use Rattle.std.specs.Prelude.{◌≡◌, length};
ghost use Rattle.cutter.specs.Calls.{fresh_cutter, cut_of, CutsAs};

use crate::state::{Cut, Cutter, HELD_MAX, Place, at_place};
use ash::{FLAG, FRAME_MAX};
use refusals::Refusal;
use slices::FixedBytes;

// The state before the first byte.
pub fn fresh() -> Cutter
    ensures { result ≡ fresh_cutter }
{
    Cutter {
        place: Place::Between,
        held: FixedBytes::of(b""),
    }
}

// Takes bytes of the piece up to and with the one that makes a frame be handed on, or all of them, and
// puts the frame at the start of `frame`. If that has under 64 bytes, the call is refused with 7 and
// takes nothing.
#[tactic(auto, unfolding(crate::specs::Calls::cut_of))]
pub fn cut(cutter: Cutter, piece: &[u8], frame: &mut [u8]) -> Cut
    ensures { CutsAs (cut_of cutter piece.now (length frame.old)) frame.old result frame.new }
{
    if frame.len() < FRAME_MAX {
        return Cut {
            cutter,
            taken: 0,
            answer: Err(Refusal::ShortOutput),
        };
    }
    let mut line = cutter;
    line.held.length = line.held.length.min(HELD_MAX);
    let walked = line.walk(piece);
    let held = line.held.as_slice();
    let taken = walked.taken;
    match walked.behind {
        None => Cut {
            cutter: at_place(line.place, held),
            taken,
            answer: Ok(None),
        },
        Some(place) => {
            slices::put(frame, 0, held);
            Cut {
                cutter: at_place(place, &[FLAG]),
                taken,
                answer: Ok(Some(held.len())),
            }
        }
    }
}

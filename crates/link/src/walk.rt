// The walk over a piece, byte by byte.
ghost use Rattle.link.specs.Walk.{walk_of};
ghost use Rattle.link.specs.Steps.{WalksAs};

use crate::reader::{Ended, Reader, behind_flag, ended_by_flag, step};
use frame::{CONTENT_MAX, FLAG};

// How far a piece was walked, and what the flag at which the walk stopped ended.
#[derive(Clone, Copy)]
pub struct Walked {
    pub reader: Reader,
    pub taken: usize,
    pub ended: Ended,
}

// Walks the piece to the flag that ends a frame with any content byte or fault, or to its end.
pub fn walk(piece: &[u8], content: &mut [u8; CONTENT_MAX], reader: Reader) -> Walked
    ensures { WalksAs (walk_of piece.now content.old reader 0) result content.new }
{
    let mut next = reader;
    for (i, byte) in piece.iter().enumerate() {
        if *byte != FLAG {
            // Field by field: a reader that is copied whole takes what lies between its fields along, which
            // cost half as much time again at each escape.
            let stepped = step(next, *byte, content);
            next.phase = stepped.phase;
            next.length = stepped.length;
            next.place = stepped.place;
            continue;
        }
        let ended = ended_by_flag(next);
        next = behind_flag();
        if !matches!(ended, Ok(None)) {
            return Walked {
                reader: next,
                taken: i + 1,
                ended,
            };
        }
    }
    Walked {
        reader: next,
        taken: piece.len(),
        ended: Ok(None),
    }
}

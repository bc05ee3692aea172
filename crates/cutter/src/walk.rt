// The walk over a piece, byte by byte.
ghost use Rattle.cutter.specs.Calls.{walk_of};
ghost use Rattle.cutter.specs.Turns.{Room, place_now, WalksAs};

use crate::state::{Cutter, Place};

// How many bytes were taken and, where the last of them made a frame be handed on, the place behind it.
#[derive(Clone, Copy)]
pub struct Walked {
    pub taken: usize,
    pub behind: Option<Place>,
}

impl Cutter {
    // Walks the piece to the byte that makes a frame be handed on, or to its end.
    pub(crate) fn walk(&mut self, piece: &[u8]) -> Walked
        requires { Room self.old }
        ensures { WalksAs (walk_of piece.now (place_now self.old) 0) result self.new }
    {
        for (i, byte) in piece.iter().enumerate() {
            if let Some(place) = self.step(*byte) {
                return Walked {
                    taken: i + 1,
                    behind: Some(place),
                };
            }
        }
        Walked {
            taken: piece.len(),
            behind: None,
        }
    }
}

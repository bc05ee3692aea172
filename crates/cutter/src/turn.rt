// What one byte of the line does.
ghost use Rattle.std.specs.Prelude.{◌≡◌, ◌∷◌, [], ◌++◌, length};
ghost use Rattle.slices.specs.FixedBytes.{shown};
ghost use Rattle.cutter.specs.Cutting.{passing, hands_on, flag_step, joined_step, step_of};
ghost use Rattle.cutter.specs.Turns.{Room, place_now, TurnsAs};
ghost use Rattle.cutter.specs.declared.state.Place.TheVariants.{Inside};

use crate::state::{Cutter, Place};
use ash::size::frame_size;
use ash::{FLAG, HEADER_SIZE};
use slices::FixedBytes;

// Wakes the other side; it is sent between frames.
pub const WAKE: u8 = 0xff;

// Each of these takes one byte. None: the line goes on. A place: what is held now is a frame to be handed
// on, and the line is at that place behind it.
// `Room` is asked, no invariant of `Cutter`: `cut` takes any state, and a frame of 64 bytes leaves none.
impl Cutter {
    #[tactic(auto, unfolding(crate::specs::Cutting::step_of))]
    pub(crate) fn step(&mut self, byte: u8) -> Option<Place>
        requires { Room self.old }
        ensures { TurnsAs (step_of (place_now self.old) byte) result self.new }
    {
        if byte == FLAG {
            return self.begin();
        }
        match self.place {
            Place::Between if byte == WAKE => None,
            Place::Between => self.stray(byte),
            Place::Inside => self.join(byte),
            Place::Passing => None,
        }
    }

    // A flag begins a frame, and ends one that is under way.
    fn begin(&mut self) -> Option<Place>
        requires { Room self.old }
        ensures { TurnsAs (flag_step (place_now self.old)) result self.new }
    {
        match self.place {
            Place::Inside => Some(Place::Inside),
            _ => {
                self.place = Place::Inside;
                self.held = FixedBytes::of(&[FLAG]);
                None
            }
        }
    }

    // Any other byte between frames is a fault, handed on alone.
    fn stray(&mut self, byte: u8) -> Option<Place>
        ensures { TurnsAs (hands_on (byte ∷ []) passing) result self.new }
    {
        self.held = FixedBytes::of(&[byte]);
        Some(Place::Passing)
    }

    // In a frame a byte joins it. Its header says whether it is at fault, and when it is whole.
    fn join(&mut self, byte: u8) -> Option<Place>
        requires room { Room self.old }
        requires inside { self.old.place ≡ Inside }
        ensures { TurnsAs (joined_step (shown self.old.held ++ (byte ∷ []))) result self.new }
    {
        self.held.bytes[self.held.length] = byte;
        self.held.length += 1;
        if self.held.length < HEADER_SIZE {
            return None;
        }
        let [_, escape, control, length, ..] = self.held.bytes;
        let Some(size) = frame_size(escape, control, length) else {
            return Some(Place::Passing);
        };
        if self.held.length < size {
            return None;
        }
        Some(Place::Between)
    }
}

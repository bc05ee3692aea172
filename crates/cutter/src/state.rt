// The cutter's state between two pieces, and what a call brings.
ghost use Rattle.std.specs.Prelude.{◌≡◌};
ghost use Rattle.cutter.specs.Calls.{place_of, cutter_of};

use ash::FRAME_MAX;
use refusals::Refusal;
use slices::FixedBytes;

// The most bytes that are held of a frame under way: one more ends it.
pub(crate) const HELD_MAX: usize = FRAME_MAX - 1;

// Where the line stands: between frames, in a frame, or in what is left of one at fault.
// No Option: in each of the three a byte does something else.
#[derive(Clone, Copy)]
pub enum Place {
    Between,
    Inside,
    Passing,
}

// In a frame `held` has the bytes that have come.
#[derive(Clone, Copy)]
pub struct Cutter {
    pub place: Place,
    pub held: FixedBytes<FRAME_MAX>,
}

// What a call brought: the bytes taken, and as its answer a refusal, no frame, or one of so many bytes at
// the start of the lent buffer.
#[derive(Clone, Copy)]
pub struct Cut {
    pub cutter: Cutter,
    pub taken: usize,
    pub answer: Result<Option<usize>, Refusal>,
}

// The state at a place, in a frame with these bytes of it.
pub(crate) fn at_place(place: Place, bytes: &[u8]) -> Cutter
    ensures { result ≡ cutter_of (place_of place bytes.now) }
{
    let held = match place {
        Place::Inside => FixedBytes::of(bytes),
        _ => FixedBytes::of(b""),
    };
    Cutter { place, held }
}

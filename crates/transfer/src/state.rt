// A transfer of one file: how it starts, which file it is of, and what a fragment makes of it.
ghost use Rattle.std.specs.Prelude.{◌≡◌};
ghost use Rattle.slices.specs.Same.{same_bytes};
ghost use Rattle.transfer.specs.Transfer.{fresh_transfer, location_of, goes_on, advanced};

use slices::FixedBytes;

// How many bytes a transfer has for its location.
const LOCATION_ROOM: usize = packet::LONGEST_LOCATION;

// A transfer of one file. `next` is the offset of the next fragment and the number of bytes written
// so far, and `declared` the length of the file, once a fragment has declared it.
#[derive(Clone, Copy)]
pub struct Transfer {
    pub location: FixedBytes<LOCATION_ROOM>,
    pub next: usize,
    pub declared: Option<usize>,
    pub complete: bool,
}

impl Transfer {
    pub(crate) fn fresh(location: &[u8]) -> Transfer
        ensures { result ≡ fresh_transfer location.now }
    {
        Transfer {
            location: FixedBytes::of(location),
            next: 0,
            declared: None,
            complete: false,
        }
    }

    // The transfer after an accepted fragment.
    pub(crate) fn advanced(self, next: usize, declared: Option<usize>, last: bool) -> Transfer
        ensures { result ≡ advanced self next declared last }
    {
        Transfer {
            next,
            declared,
            complete: last,
            ..self
        }
    }

    // Whether the transfer is of the file at `location`.
    pub(crate) fn is_of(&self, location: &[u8]) -> bool
        ensures { result ≡ same_bytes location.now (location_of self.now) }
    {
        slices::same(location, self.location.as_slice())
    }

    // Whether the transfer goes on at `offset`: it is not complete, and that is its next offset.
    #[tactic(auto, unfolding(crate::specs::Transfer::goes_on))]
    pub(crate) fn goes_on(&self, offset: usize) -> bool
        ensures { result ≡ goes_on self.now offset }
    {
        !self.complete && offset == self.next
    }
}

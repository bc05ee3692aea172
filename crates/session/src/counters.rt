// The frame counters, by direction: each goes from 1 to 7 and back to 1. Number 0 names no frame.
ghost use Rattle.std.specs.Prelude.{◌≡◌};
ghost use Rattle.session.specs.Counters.{next, next_of_ours, next_of_peers};

// How many numbers there are.
const NUMBERS: u8 = 7;

// The number of a frame that we send: our outgoing counter, a held frame, what the peer acknowledges.
#[derive(Clone, Copy, PartialEq, Eq)]
pub struct OFC(pub u8);

// The number of a frame that the peer sends: what its frames carry, and what we acknowledge.
#[derive(Clone, Copy, PartialEq, Eq)]
pub struct AFC(pub u8);

// The number of our next data frame.
pub(crate) fn next_of_ours(counter: OFC) -> OFC
    ensures { result ≡ next_of_ours counter }
{
    OFC(next(counter.0))
}

// The number of the peer's next data frame. Beside its twin, not generic: the two types stay apart, and a
// trait over them would be longer than this line.
pub(crate) fn next_of_peers(good: AFC) -> AFC
    ensures { result ≡ next_of_peers good }
{
    AFC(next(good.0))
}

fn next(number: u8) -> u8
    ensures { result ≡ next number }
{
    number % NUMBERS + 1
}

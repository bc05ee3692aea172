// The session between two events, and what an event gives.
ghost use Rattle.std.specs.Prelude.{◌≡◌};
ghost use Rattle.session.specs.State.{fresh_session};
ghost use Rattle.session.specs.Results.{refusing, done};

use crate::counters::{AFC, OFC};
use ash::PAYLOAD_MAX;
use refusals::Refusal;
use slices::FixedBytes;

// The number of a RESET, and so of our counter behind it.
pub(crate) const FIRST: u8 = 1;

// The number of the first data frame behind a RESET.
pub(crate) const SECOND: u8 = 2;

// No frame.
pub(crate) const NONE: u8 = 0;

// Data of a frame before stuffing.
pub type Payload = FixedBytes<PAYLOAD_MAX>;

// The numbers of the frames that are held, oldest first; their data stands beside it, not in it, since a
// report of dropped frames has the numbers alone. No Option: up to two are held, and two Options side by
// side could hold a second without a first.
#[derive(Clone, Copy)]
pub enum Held {
    Nothing,
    One(OFC),
    Two(OFC, OFC),
}

// `counter` is the number of our last data frame, or 1 behind a RESET; `good` that of the peer's last
// good one. `older` is the data of the frame held longest, `newer` that of the other one.
#[derive(Clone, Copy)]
pub struct Session {
    pub counter: OFC,
    pub good: AFC,
    pub awaiting: bool,
    pub held: Held,
    pub older: Payload,
    pub newer: Payload,
}

// What an event gave: how many bytes were sent and, where it is not 0, how many of payload were handed
// up, and the frames that were dropped.
#[derive(Clone, Copy)]
pub struct Done {
    pub sent: usize,
    pub payload: usize,
    pub dropped: Held,
}

#[derive(Clone, Copy)]
pub struct Outcome {
    pub session: Session,
    pub answer: Result<Done, Refusal>,
}

// A session before the first event: our RESET stands as sent, and its answer is awaited.
#[tactic(auto, unfolding(crate::specs::State::fresh_session))]
pub fn fresh() -> Session
    ensures { result ≡ fresh_session }
{
    Session {
        counter: OFC(FIRST),
        good: AFC(NONE),
        awaiting: true,
        held: Held::Nothing,
        older: FixedBytes::of(b""),
        newer: FixedBytes::of(b""),
    }
}

// A refused event leaves the session as it was.
pub(crate) fn refuse(session: Session, refusal: Refusal) -> Outcome
    ensures { result ≡ refusing session refusal }
{
    Outcome {
        session,
        answer: Err(refusal),
    }
}

pub(crate) fn finish(session: Session, sent: usize, payload: usize, dropped: Held) -> Outcome
    ensures { result ≡ done session sent payload dropped }
{
    Outcome {
        session,
        answer: Ok(Done {
            sent,
            payload,
            dropped,
        }),
    }
}

// The frames that are held until the peer has acknowledged them, or a RESET drops them.
ghost use Rattle.std.specs.Prelude.{◌≡◌};
ghost use Rattle.session.specs.State.{holds_two, holding, none_held, covered, restarted, recorded};

use crate::counters::{AFC, OFC};
use crate::state::{FIRST, Held, Session};
use slices::FixedBytes;

// Whether two frames are held, the most that may be.
pub(crate) fn holds_two(held: Held) -> bool
    ensures { result ≡ holds_two held }
{
    matches!(held, Held::Two(_, _))
}

// The session with one more frame held, whose number is now our counter. With two frames held
// already it stays as it was.
#[tactic(auto, unfolding(crate::specs::State::payload_of))]
pub(crate) fn hold(session: Session, number: OFC, payload: &[u8]) -> Session
    ensures { result ≡ holding session number payload.now }
{
    match session.held {
        Held::Nothing => Session {
            counter: number,
            held: Held::One(number),
            older: FixedBytes::of(payload),
            ..session
        },
        Held::One(first) => Session {
            counter: number,
            held: Held::Two(first, number),
            newer: FixedBytes::of(payload),
            ..session
        },
        Held::Two(_, _) => session,
    }
}

// The peer has taken our frames up to the one that it names: they are held no longer. A number of
// no held frame covers none.
pub(crate) fn cover(session: Session, acknowledged: OFC) -> Session
    ensures { result ≡ covered session acknowledged }
{
    match session.held {
        Held::One(older) if older == acknowledged => none_held(session),
        Held::Two(_, newer) if newer == acknowledged => none_held(session),
        Held::Two(older, newer) if older == acknowledged => Session {
            held: Held::One(newer),
            older: session.newer,
            ..session
        },
        _ => session,
    }
}

fn none_held(session: Session) -> Session
    ensures { result ≡ none_held session }
{
    Session {
        held: Held::Nothing,
        ..session
    }
}

// The session behind a RESET of either side: no frame is held, and our counter begins anew.
pub(crate) fn restart(session: Session, good: AFC, awaiting: bool) -> Session
    ensures { result ≡ restarted session good awaiting }
{
    Session {
        counter: OFC(FIRST),
        good,
        awaiting,
        ..none_held(session)
    }
}

// The session behind a good frame of the peer's: this number is now the last good one, and no
// RESET ACK is awaited.
pub(crate) fn record_good(session: Session, good: AFC) -> Session
    ensures { result ≡ recorded session good }
{
    Session {
        good,
        awaiting: false,
        ..session
    }
}

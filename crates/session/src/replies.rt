// An ACK or a NACK of the peer's.
ghost use Rattle.std.specs.Prelude.{◌≡◌};
ghost use Rattle.session.specs.State.{in_order, recorded_data};
ghost use Rattle.session.specs.Results.{given, HandsAs};
ghost use Rattle.session.specs.Receiving.{reply_taken};
ghost use Rattle.session.specs.Steps.{RepeatsAs};

use crate::answers::{answer_data, answer_nack};
use crate::control::Control;
use crate::counters::{AFC, next_of_peers};
use crate::frames::put_held;
use crate::holding::{cover, record_good};
use crate::state::{Held, Outcome, Session, finish};

// An ACK or, with `again`, a NACK. It is ignored while RESET ACK is awaited, and data in it has to be
// the next of the peer's, or else it gets a NACK. It covers held frames, and a NACK has the others
// sent again.
#[tactic(auto, unfolding(crate::specs::Receiving::reply_taken, crate::specs::Frames::bytes_of))]
pub(crate) fn take_reply(
    session: Session,
    control: Control,
    again: bool,
    payload: &[u8],
    output: &mut [u8],
    handed: &mut [u8],
) -> Outcome
    ensures { HandsAs session (given (reply_taken session control again payload.now)) output.old handed.old result output.new handed.new }
{
    if session.awaiting {
        return finish(session, 0, 0, Held::Nothing);
    }
    let number = control.number;
    if !in_order(session.good, number, payload.len()) {
        return answer_nack(session, output);
    }
    let covering = cover(session, control.acknowledged);
    let next = record_data(covering, number, payload.len());
    let repeated = repeat(next, again, output);
    answer_data(next, payload, repeated, output, handed)
}

// Whether a frame of so many bytes of data is the peer's next one, or has no data.
fn in_order(good: AFC, number: AFC, length: usize) -> bool
    ensures { result ≡ in_order good number length }
{
    length == 0 || number == next_of_peers(good)
}

// The number of a frame with data is the last good one.
fn record_data(session: Session, number: AFC, length: usize) -> Session
    ensures { result ≡ recorded_data session number length }
{
    if length == 0 {
        return session;
    }
    record_good(session, number)
}

// Puts the held frames at the start of `output` if they are to be sent again, and answers their length.
// A bool, here and above, not a closure: it says which of two types the frame has.
#[tactic(auto, unfolding(crate::specs::Frames::bytes_of))]
fn repeat(session: Session, again: bool, output: &mut [u8]) -> usize
    ensures { RepeatsAs again session output.old result output.new }
{
    if again {
        return put_held(session, output);
    }
    0
}

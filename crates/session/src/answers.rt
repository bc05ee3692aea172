// What goes out for a frame of the peer's, and what is handed up.
ghost use Rattle.std.specs.Prelude.{◌≤◌};
ghost use Rattle.session.specs.State.{output_room};
ghost use Rattle.session.specs.Results.{given, SendsAs};
ghost use Rattle.session.specs.Receiving.{nacked};
ghost use Rattle.session.specs.Steps.{AnswersAs};

use crate::control::Kind;
use crate::frames::put_empty;
use crate::state::{Held, Outcome, Session, finish};

// Hands up good data, which gets an empty ACK behind the `sent` bytes that are in `output`. Without
// data there is nothing to hand up.
#[tactic(auto, unfolding(crate::specs::Frames::bytes_of))]
pub(crate) fn answer_data(
    session: Session,
    payload: &[u8],
    sent: usize,
    output: &mut [u8],
    handed: &mut [u8],
) -> Outcome
    requires { sent ≤ output_room }
    ensures { AnswersAs session payload.now sent output.old handed.old result output.new handed.new }
{
    if payload.is_empty() {
        return finish(session, sent, 0, Held::Nothing);
    }
    slices::put(handed, 0, payload);
    let acknowledged = put_empty(Kind::Ack, session, output, sent);
    finish(session, sent + acknowledged, payload.len(), Held::Nothing)
}

// A frame at fault only gets an empty NACK.
pub(crate) fn answer_nack(session: Session, output: &mut [u8]) -> Outcome
    ensures { SendsAs session (given (nacked session)) output.old result output.new }
{
    let sent = put_empty(Kind::Nack, session, output, 0);
    finish(session, sent, 0, Held::Nothing)
}

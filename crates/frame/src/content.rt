// Unstuffed content: type, sequence, payload, check.
ghost use Rattle.std.specs.Prelude.{◌≡◌};
ghost use Rattle.frame.specs.Content.{judged};
ghost use Rattle.frame.specs.Answers.{read_answer};

use crate::{CHECK_START, NO_PLACE};
use refusals::Refusal;

// A frame that was read. `kind` is what the papers call its type; the payload's `length` bytes stand in
// the content from its third byte on. A length, not a slice: the bytes stand in the caller's buffer.
#[derive(Clone, Copy)]
pub struct Frame {
    pub kind: u8,
    pub sequence: u8,
    pub length: usize,
}

// Why no frame was read. The place is a length for refusal 4, an offset for 1 and 2, and 0 for others.
// A number, not an Option: C-16 gives the other refusals the place 0.
#[derive(Clone, Copy)]
pub struct Fault {
    pub refusal: Refusal,
    pub place: usize,
}

// Judges whole content: refusal 3 under four bytes, refusal 4 with the content's length where its check
// is not 0.
pub fn judge(content: &[u8]) -> Result<Frame, Fault>
    ensures { result ≡ read_answer (judged content.now) }
{
    let [kind, sequence, payload @ .., _, _] = content else {
        return Err(Fault {
            refusal: Refusal::ShortContent,
            place: NO_PLACE,
        });
    };
    if crc::check(CHECK_START, content) != 0 {
        return Err(Fault {
            refusal: Refusal::BadCheck,
            place: content.len(),
        });
    }
    Ok(Frame {
        kind: *kind,
        sequence: *sequence,
        length: payload.len(),
    })
}

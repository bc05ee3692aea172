// Unstuffing. Two readers, not one loop: document 01 asks that the plain and the escaped reader of a
// whole frame call each other. The bytes left fall with each call.
ghost use Rattle.std.specs.Prelude.{◌≡◌, ◌+◌, ◌*◌, ◌≤◌};
ghost use Rattle.frame.specs.Stuffing.{content_max, plain, escaped, unstuff_from, unstuff};
ghost use Rattle.frame.specs.ReaderSteps.{ReadersAs, refusal_told, UnstuffsAs};

use crate::content::Fault;
use crate::{CONTENT_MAX, ESCAPE, ESCAPED_DIFFERENCE, ESCAPED_ESCAPE, ESCAPED_FLAG};
use refusals::Refusal;

// A number, not an enum: with an enum as their answer the calls of the two readers don't become jumps,
// each keeps a frame on the stack, and a run takes up to 5.7 times as long. So they answer a length of
// content, below this limit, or a refusal's number times the limit, and its place.
const PLACE_LIMIT: usize = 1024;

const FRAMING_FAULT: usize = Refusal::BadFraming as usize * PLACE_LIMIT;

const LENGTH_FAULT: usize = Refusal::LongContent as usize * PLACE_LIMIT;

// Unstuffs the sent bytes between two flags to the start of `content`, and answers how many bytes stand
// there. A refusal's place is counted in sent bytes from the opening flag as 0; what it leaves there is
// open.
pub(crate) fn unstuff(run: &[u8], content: &mut [u8; CONTENT_MAX]) -> Result<usize, Fault>
    ensures { UnstuffsAs (unstuff run.now) content.old result content.new }
{
    let answer = read_plain(run, 0, content, 0);
    if answer < PLACE_LIMIT {
        return Ok(answer);
    }
    Err(Fault {
        refusal: refusal_told(answer),
        place: answer % PLACE_LIMIT,
    })
}

// The refusal that an answer of the readers tells of, from the limit on.
fn refusal_told(answer: usize) -> Refusal
    ensures { result ≡ refusal_told answer }
{
    if answer < LENGTH_FAULT {
        Refusal::BadFraming
    } else {
        Refusal::LongContent
    }
}

// Unstuffs the bytes sent behind a place, behind `held` bytes of content.
#[cycle(read_escaped_read_plain)]
fn read_plain(sent: &[u8], place: usize, content: &mut [u8; CONTENT_MAX], held: usize) -> usize
    requires { (held ≤ content_max) × (place ≤ 2 * held) }
    ensures { ReadersAs (unstuff_from plain held place sent.now) held content.old result content.new }
{
    match sent {
        [] => held,
        [ESCAPE, rest @ ..] => read_escaped(rest, place + 1, content, held),
        [byte, rest @ ..] if held < CONTENT_MAX => {
            content[held] = *byte;
            read_plain(rest, place + 1, content, held + 1)
        }
        _ => LENGTH_FAULT + place + 1,
    }
}

// The same right behind an escape byte, for exactly one byte.
#[cycle(read_escaped_read_plain)]
fn read_escaped(sent: &[u8], place: usize, content: &mut [u8; CONTENT_MAX], held: usize) -> usize
    requires { (held ≤ content_max) × (place ≤ 2 * held + 1) }
    ensures { ReadersAs (unstuff_from escaped held place sent.now) held content.old result content.new }
{
    match sent {
        [code @ (ESCAPED_FLAG | ESCAPED_ESCAPE), rest @ ..] => {
            if held < CONTENT_MAX {
                content[held] = *code + ESCAPED_DIFFERENCE;
                return read_plain(rest, place + 1, content, held + 1);
            }
            LENGTH_FAULT + place + 1
        }
        _ => FRAMING_FAULT + place + 1,
    }
}

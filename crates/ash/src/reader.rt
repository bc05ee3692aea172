// The reader of one frame.
ghost use Rattle.std.specs.Prelude.{◌≤◌, ◌∷◌, length};
ghost use Rattle.ash.specs.Reserved.{flag_byte};
ghost use Rattle.ash.specs.Stuffing.{payload_max, unstuff};
ghost use Rattle.ash.specs.Check.{check_over};
ghost use Rattle.ash.specs.Reading.{compared, checked, read_by_header, read_frame};
ghost use Rattle.ash.specs.Answers.{ReadsAs};

use crate::check::check_bytes;
use crate::escapes::unescape;
use crate::header::{control_escaped, good_header, length_escaped};
use crate::stuffing::unstuff;
use crate::{FLAG, FRAME_MIN, HEADER_SIZE, PAYLOAD_MAX};
use refusals::Refusal;

const CHECK_SIZE: usize = FRAME_MIN - HEADER_SIZE;

// A frame that was read. The payload's `length` bytes stand at the start of the output. A length, not a
// slice: the bytes stand in the caller's buffer.
#[derive(Clone, Copy)]
pub struct Frame {
    pub control: u8,
    pub length: usize,
}

// Reads one frame and puts its payload at the start of `out`. A refusal leaves `out` as it was.
#[tactic(auto, unfolding(crate::specs::Reading::read_frame))]
pub fn read_frame(bytes: &[u8], out: &mut [u8]) -> Result<Frame, Refusal>
    ensures { ReadsAs (read_frame (length out.old) bytes.now) out.old result out.new }
{
    if out.len() < PAYLOAD_MAX {
        return Err(Refusal::ShortOutput);
    }
    match bytes {
        [FLAG, escape, control, length, behind @ ..] if CHECK_SIZE <= behind.len() => {
            read_by_header(*escape, *control, *length, behind, out)
        }
        [FLAG, ..] => Err(Refusal::BadLength),
        _ => Err(Refusal::BadHeader),
    }
}

// Reads what stands behind the header of these sent bytes: refusal 21 where that is bad, then 22 where
// the length is too long or not that of the bytes.
#[tactic(auto, unfolding(crate::specs::Reading::read_by_header, crate::specs::Reading::read_by_length))]
fn read_by_header(
    escape: u8,
    control: u8,
    length: u8,
    behind: &[u8],
    out: &mut [u8],
) -> Result<Frame, Refusal>
    ensures { ReadsAs (read_by_header (flag_byte ∷ escape ∷ control ∷ length ∷ behind.now)) out.old result out.new }
{
    if !good_header(escape, control, length) {
        return Err(Refusal::BadHeader);
    }
    let size = unescape(length_escaped(escape), length) as usize;
    if PAYLOAD_MAX < size {
        return Err(Refusal::BadLength);
    }
    if behind.len() != size + CHECK_SIZE {
        return Err(Refusal::BadLength);
    }
    let (sent, check) = behind.split_at(size);
    read_payload(unescape(control_escaped(escape), control), sent, check, out)
}

// Reads a payload as it was sent: refusal 23 where it is stuffed wrongly.
#[tactic(auto, using(crate::proofs::PayloadLaws::checked_broken))]
fn read_payload(control: u8, sent: &[u8], check: &[u8], out: &mut [u8]) -> Result<Frame, Refusal>
    requires { length sent.now ≤ payload_max }
    ensures { ReadsAs (checked control check.now (unstuff sent.now)) out.old result out.new }
{
    let mut payload = [0u8; PAYLOAD_MAX];
    let length = unstuff(sent, &mut payload).ok_or(Refusal::BadStuffing)?;
    let size = sent.len() as u8;
    hand_out(control, size, &payload[..length], check, out)
}

// Puts a payload at the start of `out`: refusal 24 where the check bytes are other than the writer's.
fn hand_out(
    control: u8,
    size: u8,
    payload: &[u8],
    check: &[u8],
    out: &mut [u8],
) -> Result<Frame, Refusal>
    ensures { ReadsAs (compared control check.now (check_over control size payload.now) payload.now) out.old result out.new }
{
    let writers = check_bytes(control, size, payload);
    if !slices::same(check, &writers) {
        return Err(Refusal::OtherCheck);
    }
    slices::put(out, 0, payload);
    Ok(Frame {
        control,
        length: payload.len(),
    })
}

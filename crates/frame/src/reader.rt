// The reader of one whole frame: its flags first, then what stands between them.
ghost use Rattle.std.specs.Prelude.{length};
ghost use Rattle.frame.specs.Content.{judged};
ghost use Rattle.frame.specs.Reading.{read_run, read_frame};
ghost use Rattle.frame.specs.Answers.{ReadsAs};

use crate::content::{Fault, Frame, judge};
use crate::unstuffing::unstuff;
use crate::{CONTENT_MAX, FLAG, HEADER_SIZE, NO_PLACE, PAYLOAD_MAX};
use refusals::Refusal;

// Reads one whole frame, from its opening to its closing flag, and puts its payload at the start of
// `out`. A refusal leaves `out` as it was.
pub fn read_frame(bytes: &[u8], out: &mut [u8]) -> Result<Frame, Fault>
    ensures { ReadsAs (read_frame (length out.old) bytes.now) out.old result out.new }
{
    if out.len() < PAYLOAD_MAX {
        return Err(Fault {
            refusal: Refusal::ShortOutput,
            place: NO_PLACE,
        });
    }
    match bytes {
        [FLAG, run @ .., FLAG] if !run.contains(&FLAG) => read_run(run, out),
        _ => Err(Fault {
            refusal: Refusal::BadFraming,
            place: NO_PLACE,
        }),
    }
}

// Reads the sent bytes between two flags.
fn read_run(run: &[u8], out: &mut [u8]) -> Result<Frame, Fault>
    ensures { ReadsAs (read_run run.now) out.old result out.new }
{
    let mut content = [0u8; CONTENT_MAX];
    let length = unstuff(run, &mut content)?;
    hand_out(&content[..length], out)
}

// Judges whole content and puts its payload at the start of `out`.
fn hand_out(content: &[u8], out: &mut [u8]) -> Result<Frame, Fault>
    ensures { ReadsAs (judged content.now) out.old result out.new }
{
    let frame = judge(content)?;
    let end = frame.length + HEADER_SIZE;
    slices::put(out, 0, &content[HEADER_SIZE..end]);
    Ok(frame)
}

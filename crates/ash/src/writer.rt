// The frame writer.
ghost use Rattle.std.specs.Prelude.{◌≡◌, ◌≤◌, ◌++◌, length};
ghost use Rattle.slices.specs.Put.{put_at};
ghost use Rattle.slices.specs.Written.{WritesAs};
ghost use Rattle.ash.specs.Stuffing.{payload_max};
ghost use Rattle.ash.specs.Header.{sent_header};
ghost use Rattle.ash.specs.Check.{check_over};
ghost use Rattle.ash.specs.Writing.{write_frame};

use crate::check::check_bytes;
use crate::header::{header_escape, sent_byte};
use crate::stuffing::put_stuffed;
use crate::{FLAG, FRAME_MIN, HEADER_SIZE, PAYLOAD_MAX};
use refusals::Refusal;

// Writes the frame of a control byte and a payload at the start of `out`: refusal 22 for a payload
// over 57 bytes as sent, then refusal 7 where `out` has too little room.
#[tactic(auto, using(crate::proofs::WriteLaws::frame_length, crate::proofs::WriteLaws::frame_parts, slices::proofs::PutLaws::put_told), unfolding(crate::specs::Writing::write_frame, slices::specs::Written::fitted))]
pub fn write_frame(control: u8, payload: &[u8], out: &mut [u8]) -> Result<usize, Refusal>
    ensures { WritesAs (write_frame (length out.old) control payload.now) out.old result out.new }
{
    let mut sent = [0u8; PAYLOAD_MAX];
    let length = put_stuffed(&mut sent, payload);
    if PAYLOAD_MAX < length {
        return Err(Refusal::BadLength);
    }
    let size = FRAME_MIN + length;
    if out.len() < size {
        return Err(Refusal::ShortOutput);
    }
    put_frame(control, payload, &sent[..length], out);
    Ok(size)
}

// Puts the frame of a payload that is sent as the bytes `sent` at the start of `out`.
fn put_frame(control: u8, payload: &[u8], sent: &[u8], out: &mut [u8])
    requires { length sent.now ≤ payload_max }
    ensures { out.new ≡ put_at out.old 0 (sent_header control (length sent.now) ++ sent.now ++ check_over control (length sent.now) payload.now) }
{
    let length = sent.len() as u8;
    let header = [
        FLAG,
        header_escape(control, length),
        sent_byte(control),
        sent_byte(length),
    ];
    let check = check_bytes(control, length, payload);
    slices::put(out, 0, &header);
    slices::put(out, HEADER_SIZE, sent);
    slices::put(out, HEADER_SIZE + sent.len(), &check);
}

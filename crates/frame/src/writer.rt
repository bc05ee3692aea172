// The frame writer.
ghost use Rattle.std.specs.Prelude.{◌≡◌, ◌+◌, ◌*◌, ◌≤◌, [], ◌∷◌, ◌++◌, length};
ghost use Rattle.slices.specs.Put.{put_at};
ghost use Rattle.slices.specs.Written.{WritesAs};
ghost use Rattle.frame.specs.Stuffing.{escape_byte, content_max, stuff_byte, stuff};
ghost use Rattle.frame.specs.Writing.{write_content, write_frame};

use crate::{CHECK_START, ESCAPE, ESCAPED_ESCAPE, ESCAPED_FLAG, FLAG, PAYLOAD_MAX};
use refusals::Refusal;

// Writes the frame of a type, a sequence and a payload at the start of `out`: refusal 8 for a
// payload over 383 bytes, then refusal 7 where `out` has too little room.
pub fn write_frame(kind: u8, sequence: u8, payload: &[u8], out: &mut [u8]) -> Result<usize, Refusal>
    ensures { WritesAs (write_frame (length out.old) kind sequence payload.now) out.old result out.new }
{
    if PAYLOAD_MAX < payload.len() {
        return Err(Refusal::LongPayload);
    }
    let check = crc::check(crc::check_pair(CHECK_START, kind, sequence), payload);
    let [high, low] = check.to_be_bytes();
    put_frame(&[kind, sequence], payload, &[high, low], out)
}

// Writes the frame whose content is the three parts joined, unless `out` has too little room.
fn put_frame(head: &[u8], payload: &[u8], tail: &[u8], out: &mut [u8]) -> Result<usize, Refusal>
    requires { length head.now + length payload.now + length tail.now ≤ content_max }
    ensures { WritesAs (write_content (length out.old) (head.now ++ payload.now ++ tail.now)) out.old result out.new }
{
    let head_length = stuffed_length(head);
    let payload_length = stuffed_length(payload);
    let tail_length = stuffed_length(tail);
    let length = 2 + head_length + payload_length + tail_length;
    if out.len() < length {
        return Err(Refusal::ShortOutput);
    }
    out[0] = FLAG;
    let payload_at = put_stuffed(out, 1, head);
    let tail_at = put_stuffed(out, payload_at, payload);
    let end = put_stuffed(out, tail_at, tail);
    out[end] = FLAG;
    Ok(length)
}

// How many bytes `content` has once stuffed: no byte becomes more than two.
fn stuffed_length(content: &[u8]) -> usize
    ensures stuffed { result ≡ length (stuff content.now) }
    ensures at_most { result ≤ 2 * length content.now }
{
    let mut total: usize = 0;
    for byte in content {
        total += stuffed_size(*byte);
    }
    total
}

// How many bytes one byte of content becomes.
fn stuffed_size(byte: u8) -> usize
    ensures { result ≡ length (stuff_byte byte) }
{
    match byte {
        FLAG | ESCAPE => 2,
        _ => 1,
    }
}

// Puts `content`, stuffed, into `out` from the place `at` on, and answers the place behind it.
// A place, not an iterator over `out`: a byte becomes one or two. Three loops put what each byte becomes,
// this one, put_stuffed of ash and put_digits of cases, and they stay three: here the room is known and
// the place behind is answered, there what has no room is dropped and a length is answered. One function
// over a closure would need the closure's law at each call.
fn put_stuffed(out: &mut [u8], at: usize, content: &[u8]) -> usize
    requires { at + length (stuff content.now) ≤ length out.old }
    ensures { (result ≡ at + length (stuff content.now)) × (out.new ≡ put_at out.old at (stuff content.now)) }
{
    let mut to = at;
    for byte in content {
        to = put_byte(out, to, *byte);
    }
    to
}

// Puts one byte of content, stuffed, at the place `at`, and answers the place behind it.
fn put_byte(out: &mut [u8], at: usize, byte: u8) -> usize
    requires { at + length (stuff_byte byte) ≤ length out.old }
    ensures { (result ≡ at + length (stuff_byte byte)) × (out.new ≡ put_at out.old at (stuff_byte byte)) }
{
    match byte {
        FLAG => put_pair(out, at, ESCAPED_FLAG),
        ESCAPE => put_pair(out, at, ESCAPED_ESCAPE),
        _ => {
            out[at] = byte;
            at + 1
        }
    }
}

// Puts an escape byte and the byte behind it at the place `at`, and answers the place behind both.
fn put_pair(out: &mut [u8], at: usize, second: u8) -> usize
    requires { at + 2 ≤ length out.old }
    ensures { (result ≡ at + 2) × (out.new ≡ put_at out.old at (escape_byte ∷ second ∷ [])) }
{
    out[at] = ESCAPE;
    out[at + 1] = second;
    at + 2
}

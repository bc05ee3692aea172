// The payload as it is sent: each reserved byte stands escaped behind an escape byte.
ghost use Rattle.std.specs.Prelude.{◌≡◌, ◌≤◌, length, IfSome};
ghost use Rattle.slices.specs.Put.{put_at};
ghost use Rattle.ash.specs.Stuffing.{stuff_byte, stuff, unstuff};
ghost use Rattle.ash.specs.ReaderSteps.{UnstuffsAs};

use crate::ESCAPE;
use crate::escapes::{flip, is_reserved, rightly_escaped, unescape};

// Puts a payload, stuffed, at the start of `out`, and answers its length as sent. What would fall past
// the end of `out` is dropped.
pub(crate) fn put_stuffed(out: &mut [u8], payload: &[u8]) -> usize
    ensures { (result ≡ length (stuff payload.now)) × (out.new ≡ put_at out.old 0 (stuff payload.now)) }
{
    // A place, not an iterator over `out`: a byte becomes one or two. Why this loop is not one with
    // put_stuffed of frame stands there.
    let mut to: usize = 0;
    for byte in payload {
        to += put_byte(out, to, *byte);
    }
    to
}

// Puts one byte of payload, stuffed, at the place `at`, and answers how many bytes it takes.
fn put_byte(out: &mut [u8], at: usize, byte: u8) -> usize
    ensures { (result ≡ length (stuff_byte byte)) × (out.new ≡ put_at out.old at (stuff_byte byte)) }
{
    if is_reserved(byte) {
        slices::put(out, at, &[ESCAPE, flip(byte)]);
        return 2;
    }
    // Not slices::put: a copy of one byte at a time took up to 1.7 times as long.
    if at < out.len() {
        out[at] = byte;
    }
    1
}

// Unstuffs the bytes `sent` to the start of `payload`, and answers how many bytes that are; none where
// they break a rule. What `payload` then holds is open.
pub(crate) fn unstuff(sent: &[u8], payload: &mut [u8]) -> Option<usize>
    requires { length sent.now ≤ length payload.old }
    ensures read { UnstuffsAs (unstuff sent.now) payload.old result payload.new }
    ensures few { IfSome result (λ n. n ≤ length sent.now) }
{
    // A count, not an iterator over `payload`: an escape byte puts nothing there.
    let mut held: usize = 0;
    let mut escaped = false;
    for byte in sent {
        if !escaped && *byte == ESCAPE {
            escaped = true;
            continue;
        }
        if !rightly_escaped(escaped, *byte) {
            return None;
        }
        payload[held] = unescape(escaped, *byte);
        held += 1;
        escaped = false;
    }
    if escaped { None } else { Some(held) }
}

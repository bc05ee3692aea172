// A lent buffer as text: bytes in hexadecimal, and how many of them a call has touched.
ghost use Rattle.std.specs.Prelude.{◌≡◌, ◌%◌, ◌≤◌, length};
ghost use Rattle.slices.specs.Put.{put_at};
ghost use Rattle.cases.specs.Buffer.{hex_digit_ascii, hex_of, written_of, LastTouched};

// What a lent buffer holds before a call.
pub const UNTOUCHED: u8 = 0xee;

// Puts two digits for each byte at the start of `out`, and answers how many digits they are. What would
// fall past the end of `out` is dropped.
pub(crate) fn put_digits(out: &mut [u8], bytes: &[u8]) -> usize
    ensures { (result ≡ length (hex_of bytes.now)) × (out.new ≡ put_at out.old 0 (hex_of bytes.now)) }
{
    // Why this loop is not one with put_stuffed of frame stands there.
    for (place, byte) in bytes.iter().enumerate() {
        slices::put(out, 2 * place, &[digit(*byte / 16), digit(*byte)]);
    }
    2 * bytes.len()
}

// The last digit of a number.
fn digit(number: u8) -> u8
    ensures { result ≡ hex_digit_ascii (number % 16) }
{
    let last = number % 16;
    if last < 10 {
        return b'0' + last;
    }
    b'a' + (last - 10)
}

// How many bytes a buffer has up to and with the last one that is touched.
pub(crate) fn written(buffer: &[u8]) -> usize
    ensures value { result ≡ written_of buffer.now }
    ensures upper_bound { result ≤ length buffer.now }
{
    last_touched(buffer).map_or(0, |last| last + 1)
}

// The place of the last byte that is touched.
fn last_touched(buffer: &[u8]) -> Option<usize>
    ensures { LastTouched buffer.now result }
{
    buffer.iter().rposition(|byte| *byte != UNTOUCHED)
}

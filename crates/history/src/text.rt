// Text appended to a lent buffer. What would fall past the buffer's end is dropped, and the place
// behind the text is then that end.
// By hand, not by the library's formatting: that says what it writes to a String, on the heap, and this
// text goes to a lent buffer and is cut at its end.
// Two parameters, the buffer and the place: a struct that held a lent buffer would need one more clause
// on each function, that it still holds the same one.
ghost use Rattle.std.specs.Prelude.{◌≡◌, ◌+◌, ◌<◌, min};
ghost use Rattle.history.specs.Appending.{Appends};
ghost use Rattle.history.specs.Numbers.{decimal_of, signed_of, hex_digit, hex_byte};

// The digit 0. The letters of hexadecimal digits begin at `a`, which stands for ten.
const ZERO: u8 = b'0';

const TEN: u8 = b'a' - 10;

// Enough for a number of 64 bits in decimal.
const DIGITS_MAX: usize = 20;

// Appends `text` from the place `at` on, and answers the place behind it.
pub fn append(out: &mut [u8], at: usize, text: &[u8]) -> usize
    ensures { Appends text.now out.old at out.new result }
{
    slices::put(out, at, text);
    behind(out.len(), at, text.len())
}

// The place behind `count` bytes from `at` on in a buffer of `size` bytes.
fn behind(size: usize, at: usize, count: usize) -> usize
    ensures { result ≡ min (at + count) size }
{
    at.saturating_add(count).min(size)
}

// Appends the number in decimal: the last digit is made first, until nothing of the number is left.
pub fn decimal(out: &mut [u8], at: usize, number: u64) -> usize
    ensures { Appends (decimal_of number) out.old at out.new result }
{
    let mut digits = [0u8; DIGITS_MAX];
    let mut rest = number;
    let mut first = 0;
    for left in (0..DIGITS_MAX).rev() {
        let last = rest % 10;
        digits[left] = ZERO + last as u8;
        rest /= 10;
        if rest == 0 {
            first = left;
            break;
        }
    }
    append(out, at, &digits[first..])
}

// Appends the number in decimal, a minus sign before a negative one.
pub fn signed(out: &mut [u8], at: usize, number: i64) -> usize
    ensures { Appends (signed_of number) out.old at out.new result }
{
    let size = value::magnitude(number);
    if number < 0 {
        let place = append(out, at, b"-");
        return decimal(out, place, size);
    }
    decimal(out, at, size)
}

// Appends the byte as two hexadecimal digits.
pub fn hex(out: &mut [u8], at: usize, byte: u8) -> usize
    ensures { Appends (hex_byte byte) out.old at out.new result }
{
    let high = hex_digit(byte / 16);
    let low = hex_digit(byte % 16);
    append(out, at, &[high, low])
}

fn hex_digit(value: u8) -> u8
    requires { value < 16 }
    ensures { result ≡ hex_digit value }
{
    if value < 10 {
        ZERO + value
    } else {
        TEN + value
    }
}

#![tactic(auto)]
// The value of a value item.
ghost use Rattle.std.specs.Prelude.{◌≡◌, nat_abs};
ghost use Rattle.value.specs.Value.{number_of, boolean_of, value_of, as_value};

use packet::{BOOLEAN_KIND, CENTS_KIND, INTEGER_KIND};

// The value of an item of type `kind` with the value bytes `bytes`; none where it is no good value.
#[tactic(auto, unfolding(crate::specs::Value::value_of))]
pub fn read_value(kind: u8, bytes: &[u8]) -> Option<i64>
    ensures { result ≡ as_value (value_of kind bytes.now) }
{
    match kind {
        INTEGER_KIND | CENTS_KIND => number(bytes),
        BOOLEAN_KIND => boolean(bytes),
        _ => None,
    }
}

// The number without its sign, for a caller that prints it.
// A public name that stays; the library does the work.
pub fn magnitude(number: i64) -> u64
    ensures { result ≡ nat_abs number }
{
    number.unsigned_abs()
}

// A signed number of 1, 2, 4 or 8 bytes, high byte first.
#[tactic(auto, unfolding(crate::specs::Value::number_of))]
fn number(bytes: &[u8]) -> Option<i64>
    ensures { result ≡ as_value (number_of bytes.now) }
{
    match *bytes {
        [a] => Some(i8::from_be_bytes([a]) as i64),
        [a, b] => Some(i16::from_be_bytes([a, b]) as i64),
        [a, b, c, d] => Some(i32::from_be_bytes([a, b, c, d]) as i64),
        [a, b, c, d, e, f, g, h] => Some(i64::from_be_bytes([a, b, c, d, e, f, g, h])),
        _ => None,
    }
}

// One byte, 0 or 1.
#[tactic(auto, unfolding(crate::specs::Value::boolean_of))]
fn boolean(bytes: &[u8]) -> Option<i64>
    ensures { result ≡ as_value (boolean_of bytes.now) }
{
    match *bytes {
        [0] => Some(0),
        [1] => Some(1),
        _ => None,
    }
}

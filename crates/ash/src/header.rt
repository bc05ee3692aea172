// The header: flag, header escape, control and length.
ghost use Rattle.std.specs.Prelude.{◌≡◌, cond};
ghost use Rattle.ash.specs.Reserved.{reserved};
ghost use Rattle.ash.specs.Header.{header_escape, sent_byte, control_escaped, length_escaped, good_header};

use crate::escapes::{flip, is_reserved, rightly_escaped};

// What the header escape byte holds for a control byte and for a length byte that are escaped.
const CONTROL_ESCAPED: u8 = 0x80;

const LENGTH_ESCAPED: u8 = 0x40;

// Its other six bits are reserved.
const RESERVED_BITS: u8 = 0x3f;

// A byte of the header as it is sent.
pub(crate) fn sent_byte(byte: u8) -> u8
    ensures { result ≡ sent_byte byte }
{
    if is_reserved(byte) { flip(byte) } else { byte }
}

// The header escape byte of a control and a length byte.
pub(crate) fn header_escape(control: u8, length: u8) -> u8
    ensures { result ≡ header_escape control length }
{
    mark(control, CONTROL_ESCAPED) + mark(length, LENGTH_ESCAPED)
}

// The bit of the header escape byte that a byte of the header sets.
fn mark(byte: u8, bit: u8) -> u8
    ensures { result ≡ cond (reserved byte) bit 0 }
{
    if is_reserved(byte) { bit } else { 0 }
}

// Whether a header escape byte tells of an escaped control byte.
pub(crate) fn control_escaped(escape: u8) -> bool
    ensures { result ≡ control_escaped escape }
{
    escape & CONTROL_ESCAPED != 0
}

// Whether it tells of an escaped length byte.
pub(crate) fn length_escaped(escape: u8) -> bool
    ensures { result ≡ length_escaped escape }
{
    escape & LENGTH_ESCAPED != 0
}

// Whether a sent header sets no reserved bit, and escapes control and length where they have to be and
// only there.
#[tactic(auto, unfolding(crate::specs::Header::good_header))]
pub(crate) fn good_header(escape: u8, control: u8, length: u8) -> bool
    ensures { result ≡ good_header escape control length }
{
    if escape & RESERVED_BITS != 0 {
        return false;
    }
    if !rightly_escaped(control_escaped(escape), control) {
        return false;
    }
    rightly_escaped(length_escaped(escape), length)
}

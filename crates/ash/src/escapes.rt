// Reserved bytes, and what stands for them on the line.
ghost use Rattle.std.specs.Prelude.{◌≡◌};
ghost use Rattle.ash.specs.Reserved.{reserved, flipped, unescaped, rightly_escaped};

use crate::{ESCAPE, FLAG, UNNAMED, XOFF, XON};

// Bit 5, which is flipped in an escaped byte.
const FLIPPED_BIT: u8 = 0x20;

// Whether a byte is one that the link reserves.
#[tactic(auto, unfolding(crate::specs::Reserved::reserved))]
pub(crate) fn is_reserved(byte: u8) -> bool
    ensures { result ≡ reserved byte }
{
    matches!(byte, FLAG | ESCAPE | XON | XOFF | UNNAMED)
}

// A byte with bit 5 flipped.
pub(crate) fn flip(byte: u8) -> u8
    ensures { result ≡ flipped byte }
{
    byte ^ FLIPPED_BIT
}

// What a sent byte stands for, escaped or not. A bool, not an enum: it is a bit of the header, or whether
// an escape byte stood before.
pub(crate) fn unescape(escaped: bool, sent: u8) -> u8
    ensures { result ≡ unescaped escaped sent }
{
    if escaped { flip(sent) } else { sent }
}

// Whether a sent byte is escaped where it has to be, and only there. A bool as above.
pub(crate) fn rightly_escaped(escaped: bool, sent: u8) -> bool
    ensures { result ≡ rightly_escaped escaped sent }
{
    if escaped {
        return is_reserved(flip(sent));
    }
    !is_reserved(sent)
}

// The check bytes: a 16-bit check, spread over three bytes so that none of them is reserved.
ghost use Rattle.std.specs.Prelude.{◌≡◌};
ghost use Rattle.ash.specs.Check.{bit4, without_bit4, spread, check_over};

use crate::header::header_escape;
use crate::{CHECK_START, FLAG};

// Set in each reserved byte.
const BIT_4: u8 = 0x10;

// The three check bytes of a control and a length byte, before escaping, and a payload, before stuffing.
#[tactic(auto, using(crate::proofs::CheckLaws::check_over_law))]
pub(crate) fn check_bytes(control: u8, length: u8, payload: &[u8]) -> [u8; 3]
    ensures { result ≡ check_over control length payload.now }
{
    let opened = crc::check_pair(CHECK_START, FLAG, header_escape(control, length));
    let begun = crc::check_pair(opened, control, length);
    spread_check(crc::check(begun, payload))
}

// A check in three bytes, none of which has bit 4 set, as all reserved bytes have.
#[tactic(auto, unfolding(crate::specs::Check::spread))]
fn spread_check(check: u16) -> [u8; 3]
    ensures { result ≡ spread check }
{
    let [first, second] = check.to_be_bytes();
    let bits = bit_4(first) * 0x80 + bit_4(second) * 0x40;
    [without_bit_4(first), without_bit_4(second), bits]
}

fn bit_4(byte: u8) -> u8
    ensures { result ≡ bit4 byte }
{
    byte >> 4 & 1
}

fn without_bit_4(byte: u8) -> u8
    ensures { result ≡ without_bit4 byte }
{
    byte & !BIT_4
}

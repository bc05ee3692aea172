#![tactic(auto)]
// The check of document 01: the 16-bit CRC with polynomial 1021 hex, high bit first, nothing
// inverted, over any start value. Eight bytes are added at once, then two, and the byte that this
// leaves by a table.
mod division;
mod table;

ghost use Rattle.std.specs.Prelude.{◌≡◌, [], ◌∷◌};
ghost use Rattle.crc.specs.Crc.{crc_of};

use crate::division::{add_eight, add_word};
use crate::table::check_by_table;

// The CRC of `bytes` from the start value `start`. The CRC of two strings joined is that of the
// second, started from the first's; that of the exclusive-or of three strings of equal length is
// the exclusive-or of theirs.
pub fn check(start: u16, bytes: &[u8]) -> u16
    ensures { result ≡ crc_of start bytes.now }
{
    let mut register = start;
    let (eights, rest) = bytes.as_chunks::<8>();
    for eight in eights {
        register = add_eight(register, eight);
    }
    check_by_two(register, rest)
}

// The same, two bytes at a time. The table is lent only where a byte is left.
fn check_by_two(start: u16, bytes: &[u8]) -> u16
    ensures { result ≡ crc_of start bytes.now }
{
    let mut register = start;
    let (pairs, rest) = bytes.as_chunks::<2>();
    for [first, second] in pairs {
        register = check_pair(register, *first, *second);
    }
    if rest.is_empty() {
        return register;
    }
    check_by_table(register, rest)
}

// The CRC of two bytes.
pub fn check_pair(start: u16, first: u8, second: u8) -> u16
    ensures { result ≡ crc_of start (first ∷ second ∷ []) }
{
    let word = start ^ slices::pair(first, second);
    add_word(0, word as u64)
}

// Bytes added to the register at once, by a division.
ghost use Rattle.std.specs.Prelude.{◌≡◌};
ghost use Rattle.slices.specs.HighFirst.{high_first};
ghost use Rattle.crc.specs.Crc.{crc_of};

// The register after eight bytes more.
pub(crate) fn add_eight(register: u16, bytes: &[u8; 8]) -> u16
    ensures { result ≡ crc_of register bytes.now }
{
    add_word(register, u64::from_be_bytes(*bytes))
}

// The register after the eight bytes of a word more. The register is added to the first two of them,
// and the word, with 16 zero bits behind it, is divided by the polynomial. In arithmetic without
// carries the polynomial is 1 + u, moved up by 16 places, where u is the sum of the moves down by 4, by
// 11 and by 16 places. To divide by 1 + u is to multiply by (1 + u)(1 + u^2)(1 + u^4)(1 + u^8), up to
// u^16, which moves a whole word away. Of the quotient the low 16 bits give the remainder. Arithmetic, not
// bytes taken apart: this is the division itself.
pub(crate) fn add_word(register: u16, word: u64) -> u16
    ensures { result ≡ crc_of register (high_first 8 word) }
{
    let whole = (register as u64) * 0x1000000000000 ^ word;
    let once = whole ^ whole >> 4 ^ whole >> 11 ^ whole >> 16;
    let twice = once ^ once >> 8 ^ once >> 22 ^ once >> 32;
    let four_times = twice ^ twice >> 16 ^ twice >> 44;
    let quotient = (four_times ^ four_times >> 32) % 0x10000;
    ((quotient ^ quotient * 0x20 ^ quotient * 0x1000) % 0x10000) as u16
}

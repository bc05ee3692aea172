#![tactic(auto)]
// The check bit by bit, as it was before C-15: `make bench` measures the check against it. It is in no
// product.
ghost use Rattle.std.specs.Prelude.{◌≡◌};
ghost use Rattle.crc.specs.Crc.{shift_bit, add_byte, crc_of};

// What C calls: the CRC of `bytes` from the start value `start`.
#[unsafe(no_mangle)]
pub extern "C" fn bitwise_crc(start: u16, bytes: &[u8]) -> u16
    ensures { result ≡ crc_of start bytes.now }
{
    check(start, bytes)
}

// The same, byte by byte.
fn check(start: u16, bytes: &[u8]) -> u16
    ensures { result ≡ crc_of start bytes.now }
{
    let mut register = start;
    for byte in bytes {
        register = add_byte(register, *byte);
    }
    register
}

// The register after one byte more. Multiples and remainders, not shifts, here and below: the check stays
// as it was before C-15, and the definitions say it so.
fn add_byte(register: u16, byte: u8) -> u16
    ensures { result ≡ add_byte register byte }
{
    let high = (byte as u16) * 0x100;
    let mut next = register ^ high;
    for _ in 0..8u8 {
        next = shift_bit(next);
    }
    next
}

// The register after one bit more.
fn shift_bit(register: u16) -> u16
    ensures { result ≡ shift_bit register }
{
    let shifted = register % 0x8000 * 2;
    if register < 0x8000 {
        shifted
    } else {
        shifted ^ 0x1021
    }
}

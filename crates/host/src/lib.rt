#![tactic(auto)]
// What the C firmware calls (include/arznavik.h): the frame check, the frame writer and the CRC, on
// numbers and byte slices. A slice is passed as a pointer and a length.
ghost use Rattle.std.specs.Prelude.{◌≡◌, ◌<◌, length};
ghost use Rattle.crc.specs.Crc.{crc_of};
ghost use Rattle.frame.specs.Reading.{read_frame};
ghost use Rattle.frame.specs.Writing.{write_frame};
ghost use Rattle.host.specs.Report.{report_of, ReportsRead, ReportsWritten};

use frame::NO_PLACE;
use frame::reader::read_frame;
use frame::writer::write_frame;

// The CRC of `bytes` from the start value `start`.
#[unsafe(no_mangle)]
pub extern "C" fn arznavik_crc(start: u16, bytes: &[u8]) -> u16
    ensures { result ≡ crc_of start bytes.now }
{
    crc::check(start, bytes)
}

// The whole-frame reader: its report, and the payload at the start of `output`. A refusal leaves
// `output` as it was.
#[unsafe(no_mangle)]
pub extern "C" fn arznavik_frame_check(bytes: &[u8], output: &mut [u8]) -> u64
    ensures { ReportsRead (read_frame (length output.old) bytes.now) output.old result output.new }
{
    match read_frame(bytes, output) {
        Err(fault) => report(fault.refusal.number(), 0, 0, 0, fault.place),
        Ok(frame) => report(0, frame.kind, frame.sequence, frame.length, NO_PLACE),
    }
}

// The frame writer: its report, and the frame at the start of `output`. A refusal leaves `output`
// as it was.
#[unsafe(no_mangle)]
pub extern "C" fn arznavik_frame_write(
    kind: u8,
    sequence: u8,
    payload: &[u8],
    output: &mut [u8],
) -> u64
    ensures { ReportsWritten (write_frame (length output.old) kind sequence payload.now) output.old result output.new }
{
    match write_frame(kind, sequence, payload, output) {
        Err(refusal) => report(refusal.number(), 0, 0, 0, NO_PLACE),
        Ok(length) => report(0, 0, 0, length, NO_PLACE),
    }
}

// A report: the refusal's number in bits 0 to 7, type in 8 to 15, sequence in 16 to 23, length in 24
// to 39, the refusal's place in 40 to 63. One number, not a struct: C reads it by these places
// (include/arznavik.h). The contract says them as multiples, and so does the sum.
fn report(number: u8, kind: u8, sequence: u8, length: usize, place: usize) -> u64
    requires { (length < 0x10000) × (place < 0x1000000) }
    ensures { result ≡ report_of number kind sequence length place }
{
    let low = (number as u64) + (kind as u64) * 0x100 + (sequence as u64) * 0x10000;
    low + (length as u64) * 0x1000000 + (place as u64) * 0x10000000000
}

#![tactic(auto)]
// The writer and the reader of ASHv3 frames, by request C-11 and source document 002: what they answer,
// and the whole lent output after it.
//
// The keys: `w` writes a frame, `r` reads one. The first byte of both is the length of the lent output,
// at most 80. Behind it stand, for `w`, the control byte and the payload, for `r` the bytes of the frame.
// Before each call the output holds ee.
use ash::reader::Frame;
use cases::buffer::UNTOUCHED;
use cases::{line, print};

// The longest output that is lent.
const OUTPUT_MAX: usize = 80;

pub fn run(rt: &impl Print, line: &[u8], bytes: &[u8]) {
    let mut output = [UNTOUCHED; OUTPUT_MAX];
    let too_long = b"too long an output";
    if let Some((room, rest)) = line::room(rt, line, bytes, OUTPUT_MAX, too_long) {
        run_case(rt, line, rest, &mut output[..room]);
    }
}

fn run_case(rt: &impl Print, line: &[u8], bytes: &[u8], out: &mut [u8]) {
    match line::key(line) {
        b'w' => show_written(rt, line, bytes, out),
        b'r' => show_read(rt, line, bytes, out),
        _ => line::not_run(rt, line, b"no such key"),
    }
}

fn show_written(rt: &impl Print, line: &[u8], bytes: &[u8], out: &mut [u8]) {
    let [control, payload @ ..] = bytes else {
        line::not_run(rt, line, b"too few bytes");
        return;
    };
    line::label(rt, line);
    match ash::writer::write_frame(*control, payload, out) {
        Ok(length) => print::number(rt, b": length ", length as u64),
        Err(refusal) => print::number(rt, b": refused ", refusal.number() as u64),
    }
    show_output(rt, out);
}

fn show_read(rt: &impl Print, line: &[u8], bytes: &[u8], out: &mut [u8]) {
    line::label(rt, line);
    match ash::reader::read_frame(bytes, out) {
        Ok(Frame { control, length }) => {
            print::number(rt, b": control ", control as u64);
            print::number(rt, b" length ", length as u64);
        }
        Err(refusal) => print::number(rt, b": refused ", refusal.number() as u64),
    }
    show_output(rt, out);
}

fn show_output(rt: &impl Print, out: &[u8]) {
    print::bytes(rt, b" ", out, out.len());
    print::text(rt, b"\n");
}

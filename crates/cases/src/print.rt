// Text, numbers and bytes on standard output. No contract can say what is written, and none here
// does; a write that fails is passed over, and the comparison of the output finds it.
use crate::buffer::{put_digits, written};

// How many bytes are written in hexadecimal at a time, and their digits.
const PART: usize = 64;

const PART_DIGITS: usize = PART + PART;

pub fn text(rt: &impl Print, text: &[u8]) {
    let _ = rt.write_all(text);
}

// A label and a number in decimal.
pub fn number(rt: &impl Print, label: &[u8], number: u64) {
    text(rt, label);
    let _ = rt.print(number);
}

// A label and the first `count` of the bytes, two hexadecimal digits each.
pub fn bytes(rt: &impl Print, label: &[u8], bytes: &[u8], count: usize) {
    hex(rt, label, slices::first(bytes, count));
}

// A label and a lent buffer: its bytes up to and with the last one that is not ee, and behind a plus
// how many bytes follow.
pub fn lent(rt: &impl Print, label: &[u8], buffer: &[u8]) {
    let (touched, rest) = buffer.split_at(written(buffer));
    hex(rt, label, touched);
    number(rt, b"+", rest.len() as u64);
}

// A label and bytes, two hexadecimal digits each, many bytes in one write.
pub fn hex(rt: &impl Print, label: &[u8], bytes: &[u8]) {
    text(rt, label);
    for part in bytes.chunks(PART) {
        hex_part(rt, part);
    }
}

fn hex_part(rt: &impl Print, bytes: &[u8]) {
    let mut digits = [0u8; PART_DIGITS];
    let count = put_digits(&mut digits, bytes);
    text(rt, slices::first(&digits, count));
}

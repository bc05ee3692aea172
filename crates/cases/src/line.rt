// The parts of a case's line.
ghost use Rattle.std.specs.Prelude.{◌≡◌, ◌==◌, ◌+◌, ◌<◌, min, length, position, MatchOption};
ghost use Rattle.cases.specs.Counts.{IsPrefixLen};
ghost use Rattle.slices.specs.Put.{put_at};
ghost use Rattle.cases.specs.Lending.{Lends, LendsNothing};
ghost use Rattle.cases.specs.Line.{line_at, key_of, digit_of, byte_of, case_bytes, with_byte, number_from};

use crate::print;

// The line of a text that begins at a place, without its end. Past the text it is empty.
#[tactic(auto, using(slices::proofs::PartLaws::part_rest, crate::proofs::LineLaws::no_line, crate::proofs::LineLaws::ended_line, crate::proofs::LineLaws::last_line))]
pub fn at(text: &[u8], place: usize) -> &[u8]
    ensures { result.now ≡ line_at text.now place }
{
    if text.len() <= place {
        return b"";
    }
    let rest = &text[place..];
    match find(rest, b'\n') {
        Some(end) => slices::first(rest, end),
        None => rest,
    }
}

// The place where the next line begins; where there is none, the text's length.
#[tactic(auto, using(crate::proofs::LineLaws::line_within))]
pub fn behind(text: &[u8], place: usize) -> usize
    ensures { result ≡ min (length text.now) (place + length (line_at text.now place) + 1) }
{
    if text.len() <= place {
        return text.len();
    }
    text.len().min(place + at(text, place).len() + 1)
}

// The key of a line. An empty line has the key 0.
pub fn key(line: &[u8]) -> u8
    ensures { result ≡ key_of line.now }
{
    line.first().copied().unwrap_or(0)
}

// Prints the label of a line. No contract can say what is written.
pub fn label(rt: &impl Print, line: &[u8]) {
    let end = find(line, b':').unwrap_or(line.len());
    if let Some(label) = line.get(2..end) {
        print::text(rt, label);
    }
}

// Says that the case of a line is not run, and why. No contract can say what is written.
pub fn not_run(rt: &impl Print, line: &[u8], why: &[u8]) {
    print::text(rt, b"not run, ");
    print::text(rt, why);
    print::text(rt, b": ");
    label(rt, line);
    print::text(rt, b"\n");
}

// The length of the buffer that a case lends, which is its first byte, and the bytes behind it. A case
// without that byte, or with a length of more than `most`, is not run; `too_long` tells of the length.
pub fn room<'a>(
    rt: &impl Print,
    line: &[u8],
    bytes: &'a [u8],
    most: usize,
    too_long: &[u8],
) -> Option<(usize, &'a [u8])>
    ensures { MatchOption result (LendsNothing bytes.now most) (λ lent. Lends bytes.now most lent.0 lent.1.now) }
{
    let [first, rest @ ..] = bytes else {
        not_run(rt, line, b"too few bytes");
        return None;
    };
    let room = *first as usize;
    if most < room {
        not_run(rt, line, too_long);
        return None;
    }
    Some((room, rest))
}

// Puts the bytes of a line at the start of a lent buffer, and answers how many they are. Of bytes
// that are more than the buffer the first ones are put.
pub fn bytes(line: &[u8], out: &mut [u8]) -> usize
    ensures out_after { out.new ≡ put_at out.old 0 (case_bytes line.now) }
    ensures value { result ≡ min (length (case_bytes line.now)) (length out.old) }
    ensures prefix_len { IsPrefixLen result out.new }
{
    let Some(colon) = find(line, b':') else {
        return 0;
    };
    let mut left = &line[colon + 1..];
    for (count, slot) in out.iter_mut().enumerate() {
        let [_, first, second, rest @ ..] = left else {
            return count;
        };
        *slot = byte(*first, *second);
        left = rest;
    }
    out.len()
}

// The bytes of a line as one number, high byte first; of more than eight the last eight.
pub fn number(bytes: &[u8]) -> u64
    ensures { result ≡ number_from 0 bytes.now }
{
    bytes
        .iter()
        .fold(0, |number, byte| with_byte(number, *byte))
}

fn with_byte(number: u64, byte: u8) -> u64
    ensures { result ≡ with_byte number byte }
{
    (number << 8) + byte as u64
}

// The byte that two characters stand for.
fn byte(first: u8, second: u8) -> u8
    ensures { result ≡ byte_of first second }
{
    if first == b'\'' {
        return second;
    }
    digit(first) * 16 + digit(second)
}

// The value of a hexadecimal digit.
fn digit(character: u8) -> u8
    ensures value { result ≡ digit_of character }
    ensures upper_bound { result < 16 }
{
    if character < 64 {
        return character % 16;
    }
    (character % 16 + 9) % 16
}

// The place of the first byte `mark`.
fn find(text: &[u8], mark: u8) -> Option<usize>
    ensures { result ≡ position (λ b. b == mark) text.now }
{
    text.iter().position(|byte| *byte == mark)
}

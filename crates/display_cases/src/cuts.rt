// A stream, cut in two at every place and into pieces of one byte, gives the same refusals with their
// places, replies, packets, counts and rows as the whole: they are compared by a check over them.
use crate::calls::show_display;
use crate::feeding::{Passed, pass};
use cases::print;
use display::Display;
use history::lines::LINE_MAX;
use link::counts::Counts;
use rows::Board;

pub(crate) fn compare(rt: &impl Print, display: Display, stream: &[u8]) -> Display {
    let before = Passed { display, check: 0 };
    let passed = pass(rt, before, stream, true);
    show_display(rt, passed.display);
    let whole = total(passed);
    print::number(rt, b"check ", whole as u64);
    print::number(rt, b"\ncuts ", stream.len() as u64 + 1);
    print::number(rt, b" alike ", alike(rt, before, stream, whole) as u64);
    let same = byte_by_byte(rt, before, stream) == whole;
    print::number(rt, b"\nbyte by byte alike ", same as u64);
    print::text(rt, b"\n");
    passed.display
}

// At how many places a cut gives what the whole stream gives.
fn alike(rt: &impl Print, before: Passed, stream: &[u8], whole: u16) -> usize {
    (0..=stream.len())
        .filter(|place| cut_at(rt, before, stream, *place) == whole)
        .count()
}

// The stream in two pieces. A place past the end leaves the stream out.
fn cut_at(rt: &impl Print, before: Passed, stream: &[u8], place: usize) -> u16 {
    let Some((front, back)) = stream.split_at_checked(place) else {
        return total(before);
    };
    total(pass(rt, pass(rt, before, front, false), back, false))
}

fn byte_by_byte(rt: &impl Print, before: Passed, stream: &[u8]) -> u16 {
    let mut passed = before;
    for byte in stream {
        passed = pass(rt, passed, &[*byte], false);
    }
    total(passed)
}

// The check over what was handed out, the lines of counts and those of the rows in use.
fn total(passed: Passed) -> u16 {
    let display = passed.display;
    rows_marked(
        counts_marked(passed.check, display.link.counts),
        display.board,
    )
}

fn counts_marked(check: u16, counts: Counts) -> u16 {
    let mut line = [0u8; LINE_MAX];
    history::lines::counts(&mut line, counts);
    let first = crc::check(check, &line);
    history::lines::refused(&mut line, &counts.refused);
    crc::check(first, &line)
}

fn rows_marked(check: u16, board: Board) -> u16 {
    let mut line = [0u8; LINE_MAX];
    history::lines::row(&mut line, board.rows[0]);
    let first = crc::check(check, &line);
    history::lines::row(&mut line, board.rows[1]);
    crc::check(first, &line)
}

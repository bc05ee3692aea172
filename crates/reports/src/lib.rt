#![tactic(auto)]
// What a display sent, counted and shows, on standard output, in the lines that `history` puts
// together. No contract can say what is written; each function fails where not all was.
use history::lines::LINE_MAX;
use link::counts::Counts;
use rows::{Board, Row};
use std::io;
use std::io::ErrorKind;

// A reply that the display sent: the first `count` bytes.
pub fn reply(rt: &impl Print, bytes: &[u8], count: usize) -> io::Result<()> {
    let sent = bytes.get(..count).ok_or(ErrorKind::InvalidInput)?;
    let mut line = [0u8; LINE_MAX];
    let length = history::lines::reply(&mut line, sent);
    rt.write_all(&line[..length])
}

// The rows that have a name.
pub fn rows(rt: &impl Print, board: Board) -> io::Result<()> {
    for shown in &board.rows {
        row(rt, *shown)?;
    }
    Ok(())
}

fn row(rt: &impl Print, row: Row) -> io::Result<()> {
    let mut line = [0u8; LINE_MAX];
    let length = history::lines::row(&mut line, row);
    rt.write_all(&line[..length])
}

// The two lines of counts.
pub fn counts(rt: &impl Print, counts: Counts) -> io::Result<()> {
    let mut line = [0u8; LINE_MAX];
    let length = history::lines::counts(&mut line, counts);
    rt.write_all(&line[..length])?;
    let length = history::lines::refused(&mut line, &counts.refused);
    rt.write_all(&line[..length])
}

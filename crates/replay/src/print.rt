// What the program prints at its end. Each function fails where not all was written.
use display::Display;
use std::io;

// The history is broken at the field that was read last.
pub(crate) fn broken(rt: &impl Print) -> io::Result<()> {
    rt.write_all(b"refused 15\n")
}

// The rows, then the counts.
pub(crate) fn report(rt: &impl Print, display: Display) -> io::Result<()> {
    reports::rows(rt, display.board)?;
    reports::counts(rt, display.link.counts)
}

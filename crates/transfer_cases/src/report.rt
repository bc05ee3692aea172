// Outcomes and lent buffers as text.
use cases::{line, print};
use transfer::Outcome;

// How many bytes of a long buffer are shown, its last ones.
const SHOWN: usize = 10;

// An answer and the transfer after it.
pub(crate) fn show(rt: &impl Print, line: &[u8], outcome: Outcome) {
    line::label(rt, line);
    match outcome.answer {
        Ok(()) => print::text(rt, b": accepted"),
        Err(refusal) => print::number(rt, b": refused ", u64::from(refusal.number())),
    }
    let transfer = outcome.transfer;
    print::number(rt, b", next ", transfer.next as u64);
    match transfer.declared {
        Some(length) => print::number(rt, b", length ", length as u64),
        None => print::text(rt, b", length unknown"),
    }
    show_end(rt, transfer.complete);
}

fn show_end(rt: &impl Print, complete: bool) {
    if complete {
        print::text(rt, b", complete");
    } else {
        print::text(rt, b", going on");
    }
}

pub(crate) fn show_file(rt: &impl Print, file: &[u8]) {
    let start = file.len().saturating_sub(SHOWN);
    print::hex(rt, b", file ", &file[start..]);
    print::text(rt, b"\n");
}

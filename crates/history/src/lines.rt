// The lines of a report, each put at the start of a lent buffer; each function answers how many
// bytes its line has there. Of a line that is longer than the buffer the first bytes are put.
ghost use Rattle.history.specs.Appending.{Appends};
ghost use Rattle.history.specs.Lines.{reply_line, state_text, row_line, labelled, counts_line, refused_line};

use crate::text::{append, decimal, hex, signed};
use link::counts::Counts;
use rows::{Row, State};

// Room for every line that a display gives rise to. The longest is that of a current row, with 27
// bytes of name, 20 of value and 2 of age: 60 bytes.
pub const LINE_MAX: usize = 64;

// A reply that the display sent.
pub fn reply(out: &mut [u8], bytes: &[u8]) -> usize
    ensures { Appends (reply_line bytes.now) out.old 0 out.new result }
{
    let mut place = append(out, 0, b"reply ");
    for byte in bytes {
        place = hex(out, place, *byte);
    }
    append(out, place, b"\n")
}

// A row: its name and its state. An unused row, which has no name, has no line.
pub fn row(out: &mut [u8], row: Row) -> usize
    ensures { Appends (row_line row) out.old 0 out.new result }
{
    let name = row.name.as_slice();
    if name.is_empty() {
        return 0;
    }
    let place = append(out, 0, name);
    state(out, place, row.state)
}

fn state(out: &mut [u8], at: usize, state: State) -> usize
    ensures { Appends (state_text state) out.old at out.new result }
{
    match state {
        State::Never => append(out, at, b" never\n"),
        State::Silent => append(out, at, b" silent\n"),
        State::Current { value, age } => {
            let first = append(out, at, b" current ");
            let second = signed(out, first, value);
            let third = labelled(out, second, b" ", u64::from(age));
            append(out, third, b"\n")
        }
    }
}

// A label and a number.
fn labelled(out: &mut [u8], at: usize, label: &[u8], number: u64) -> usize
    ensures { Appends (labelled label.now number) out.old at out.new result }
{
    let place = append(out, at, label);
    decimal(out, place, number)
}

// The counts of frames and of packets not read.
pub fn counts(out: &mut [u8], counts: Counts) -> usize
    ensures { Appends (counts_line counts) out.old 0 out.new result }
{
    let first = labelled(out, 0, b"new ", u64::from(counts.new));
    let second = labelled(out, first, b" again ", u64::from(counts.again));
    let third = labelled(out, second, b" heard ", u64::from(counts.heard));
    let fourth = labelled(out, third, b" unread ", u64::from(counts.unread));
    append(out, fourth, b"\n")
}

// The counts of refusals 1 to 6.
pub fn refused(out: &mut [u8], counts: &[u16]) -> usize
    ensures { Appends (refused_line counts.now) out.old 0 out.new result }
{
    let mut place = append(out, 0, b"refused");
    for count in counts {
        place = labelled(out, place, b" ", u64::from(*count));
    }
    append(out, place, b"\n")
}

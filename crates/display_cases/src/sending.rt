// Sends and timeouts of a display, and what its sender holds.
ghost use Rattle.std.specs.Prelude.{◌≡◌};

use cases::buffer::UNTOUCHED;
use cases::{line, print};
use display::{Display, Outgoing};
use sender::{Answer, Payload};

// The longest output that is lent: the longest frame of ours has 774 bytes.
const OUTPUT_MAX: usize = 800;

// The first two bytes are the length of the lent output, high byte first.
pub(crate) fn run_event(rt: &impl Print, display: Display, line: &[u8], bytes: &[u8]) -> Display {
    let mut output = [UNTOUCHED; OUTPUT_MAX];
    let [high, low, payload @ ..] = bytes else {
        line::not_run(rt, line, b"too few bytes");
        return display;
    };
    let room = slices::pair(*high, *low) as usize;
    let Some(lent) = output.get_mut(..room) else {
        line::not_run(rt, line, b"too long an output");
        return display;
    };
    match line::key(line) {
        b'd' => shown(rt, display::send(display, payload, lent), lent),
        _ => shown(rt, display::timeout(display, lent), lent),
    }
}

// Prints what an event gave, and the whole lent output; the display after it.
fn shown(rt: &impl Print, sent: Outgoing, output: &[u8]) -> Display
    ensures { result ≡ sent.display }
{
    show_answer(rt, sent.answer);
    print::lent(rt, b" ", output);
    print::text(rt, b"\n");
    sent.display
}

fn show_answer(rt: &impl Print, answer: Answer) {
    match answer {
        Answer::Nothing => print::text(rt, b"nothing"),
        Answer::Refused(refusal) => print::number(rt, b"refused ", refusal.number() as u64),
        Answer::Sent { sequence, length } => show_frame(rt, b"sent ", sequence, length),
        Answer::Repeated { sequence, length } => show_frame(rt, b"repeated ", sequence, length),
        Answer::Dropped(sequence) => print::number(rt, b"dropped ", sequence as u64),
    }
}

fn show_frame(rt: &impl Print, label: &[u8], sequence: u8, length: usize) {
    print::number(rt, label, sequence as u64);
    print::number(rt, b" length ", length as u64);
}

// Prints the sequence of the next frame and the frame that is held; the display as it was.
pub(crate) fn show_sender(rt: &impl Print, display: Display) -> Display
    ensures { result ≡ display }
{
    let sender = display.sender;
    print::number(rt, b"next ", sender.next as u64);
    match sender.held {
        None => print::text(rt, b" held nothing"),
        Some(held) => {
            print::number(rt, b" held ", held.sequence as u64);
            print::number(rt, b" repeats ", held.repeats as u64);
            show_payload(rt, sender.payload);
        }
    }
    print::text(rt, b"\n");
    display
}

fn show_payload(rt: &impl Print, payload: Payload) {
    print::hex(rt, b" payload ", payload.as_slice());
}

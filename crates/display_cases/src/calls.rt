// Calls of the display, and what they answer.
ghost use Rattle.std.specs.Prelude.{◌≡◌};

use board::Done;
use cases::print;
use display::{Answer, Display};
use frame::PAYLOAD_MAX;
use link::receiver::REPLY_ROOM;
use refusals::Refusal;

// Calls with a reply buffer, then with a packet buffer that is a byte too short.
pub(crate) fn short_buffers(rt: &impl Print, display: Display, piece: &[u8]) -> Display {
    let mut reply = [0u8; REPLY_ROOM];
    let mut packet = [0u8; PAYLOAD_MAX];
    let mut short_reply = [0u8; REPLY_ROOM - 1];
    let mut short_packet = [0u8; PAYLOAD_MAX - 1];
    let next = call(rt, display, piece, &mut short_reply, &mut packet);
    call(rt, next, piece, &mut reply, &mut short_packet)
}

fn call(
    rt: &impl Print,
    display: Display,
    piece: &[u8],
    reply: &mut [u8],
    packet: &mut [u8],
) -> Display {
    let received = display::receive(display, piece, reply, packet);
    show_answer(rt, received.taken, received.answer, reply, packet);
    received.display
}

pub(crate) fn show_answer(
    rt: &impl Print,
    taken: usize,
    answer: Answer,
    reply: &[u8],
    packet: &[u8],
) {
    print::number(rt, b"taken ", taken as u64);
    match answer {
        Answer::Nothing => print::text(rt, b" nothing"),
        Answer::Refused(fault) => {
            print::number(rt, b" refused ", fault.refusal.number() as u64);
            print::number(rt, b" place ", fault.place as u64);
        }
        Answer::Heard(sequence) => print::number(rt, b" heard ", sequence as u64),
        Answer::Again(length) => print::bytes(rt, b" again reply ", reply, length),
        Answer::New {
            reply: reply_length,
            packet: packet_length,
            reading,
        } => {
            print::bytes(rt, b" new reply ", reply, reply_length);
            print::bytes(rt, b" packet ", packet, packet_length);
            show_reading(rt, reading);
        }
    }
    print::text(rt, b"\n");
}

// Beside the printer of the same name in board_cases: their labels differ, and one function would take
// three of them.
fn show_reading(rt: &impl Print, reading: Result<Done, Refusal>) {
    match reading {
        Ok(Done::Updated { row, id }) => {
            print::number(rt, b" row ", row as u64);
            print::number(rt, b" id ", id as u64);
        }
        Ok(Done::EndMark { id }) => print::number(rt, b" end mark, id ", id as u64),
        Err(refusal) => print::number(rt, b" unread ", refusal.number() as u64),
    }
}

// Prints the counts, then the rows that have a name, and answers the display as it was.
pub fn show_display(rt: &impl Print, display: Display) -> Display
    ensures { result ≡ display }
{
    let _ = reports::counts(rt, display.link.counts);
    let _ = reports::rows(rt, display.board);
    display
}

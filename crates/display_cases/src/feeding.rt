// Streams fed to a display, one call after the other.
ghost use Rattle.std.specs.Prelude.{◌≡◌, [], ◌∷◌};
ghost use Rattle.rows.specs.Rows.{row_count};
ghost use Rattle.board.specs.WatchList.{watch_names, as_watched};
ghost use Rattle.display.specs.Display.{fresh};
ghost use Rattle.display.specs.Taking.{Takes};

use crate::calls::show_answer;
use cases::line;
use display::{Answer, Display};
use frame::{CONTENT_MAX, PAYLOAD_MAX};
use link::receiver::REPLY_ROOM;

// A display, and a check over all that was handed out on the way to it.
#[derive(Clone, Copy)]
pub struct Passed {
    pub display: Display,
    pub check: u16,
}

#[derive(Clone, Copy)]
struct Call {
    passed: Passed,
    taken: usize,
}

// A fresh display that watches h1 and h2.
pub fn fresh_display() -> Display
    ensures { result ≡ fresh (as_watched row_count (watch_names row_count (0x01 ∷ 0x00 ∷ 0x02 ∷ 0x68 ∷ 0x31 ∷ 0x01 ∷ 0x00 ∷ 0x02 ∷ 0x68 ∷ 0x32 ∷ []))).board }
{
    let watched = board::watch_list(b"\x01\x00\x02h1\x01\x00\x02h2");
    display::start(watched.board)
}

// Feeds a whole stream and prints each answer.
pub(crate) fn feed(rt: &impl Print, display: Display, stream: &[u8]) -> Display {
    pass(rt, Passed { display, check: 0 }, stream, true).display
}

// At most so many zeros: one more than the longest content.
const ZEROS_MAX: usize = CONTENT_MAX + 1;

pub(crate) fn feed_zeros(rt: &impl Print, display: Display, line: &[u8], count: u64) -> Display {
    let zeros = [0u8; ZEROS_MAX];
    match zeros.get(..count as usize) {
        Some(stream) => feed(rt, display, stream),
        None => {
            line::not_run(rt, line, b"too many zeros");
            display
        }
    }
}

// The same acknowledgement many times, with no answer printed.
pub(crate) fn feed_acknowledgements(rt: &impl Print, display: Display, count: u64) -> Display {
    let mut passed = Passed { display, check: 0 };
    for _ in 0..count {
        passed = pass(rt, passed, b"\x7e\x02\x01\x6b\x4c\x7e", false);
    }
    passed.display
}

// Feeds a whole stream; `shown` says whether the answers are printed. A bool, not an enum of two values:
// it switches one call on.
pub(crate) fn pass(rt: &impl Print, before: Passed, stream: &[u8], shown: bool) -> Passed {
    let mut passed = before;
    let mut left = stream;
    // What is left, not a `for`: a call stops after each frame, and says how many bytes it took.
    while !left.is_empty() {
        let call = take_piece(rt, passed, left, shown);
        passed = call.passed;
        left = &left[call.taken..];
    }
    passed
}

// One call with buffers of the least size; they count where it brought a frame. The contract says how
// many bytes it takes, and no more: the loop needs that to end. `shown` is the bool of `pass`.
fn take_piece(rt: &impl Print, before: Passed, piece: &[u8], shown: bool) -> Call
    ensures { Takes piece.now result.taken }
{
    let mut reply = [0u8; REPLY_ROOM];
    let mut packet = [0u8; PAYLOAD_MAX];
    let received = display::receive(before.display, piece, &mut reply, &mut packet);
    let check = marked(before.check, received.answer, &reply, &packet);
    if shown {
        show_answer(rt, received.taken, received.answer, &reply, &packet);
    }
    Call {
        passed: Passed {
            display: received.display,
            check,
        },
        taken: received.taken,
    }
}

fn marked(check: u16, answer: Answer, reply: &[u8], packet: &[u8]) -> u16 {
    if let Answer::Nothing = answer {
        return check;
    }
    crc::check(crc::check(refusal_marked(check, answer), reply), packet)
}

// A refusal counts with its number and its place.
fn refusal_marked(check: u16, answer: Answer) -> u16 {
    let Answer::Refused(fault) = answer else {
        return check;
    };
    let [.., high, low] = fault.place.to_be_bytes();
    crc::check(check, &[fault.refusal.number(), high, low])
}

// Reading a history, one field at a time.
ghost use Rattle.std.specs.Prelude.{IfOk};
ghost use Rattle.display.specs.Taking.{Takes};

use display::{Answer, Display};
use frame::PAYLOAD_MAX;
use history::fields::{FIELD_MAX, Head};
use link::receiver::REPLY_ROOM;
use std::io;
use std::io::Read;

// The bytes of a field's length.
const LENGTH_BYTES: usize = 2;

// Why a replay ends before its history does: the history is broken at a field, or reading or writing
// failed.
#[derive(Clone, Copy)]
pub enum Fault {
    Broken,
    Stopped,
}

impl From<io::Error> for Fault {
    fn from(_error: io::Error) -> Fault {
        Fault::Stopped
    }
}

// The head of the next field, if there is one. A head that is cut is broken. `listing` is the bool of the
// judge.
pub(crate) fn head(input: &mut impl Read, listing: bool) -> Result<Option<Head>, Fault> {
    let mut tag = [0u8; 1];
    if input.read(&mut tag)? == 0 {
        return Ok(None);
    }
    let mut size = [0u8; LENGTH_BYTES];
    fill(input, &mut size)?;
    let head = history::fields::judge(tag[0], size[0], size[1], listing);
    Ok(Some(head.ok_or(Fault::Broken)?))
}

// Plays the field of a head. A field that is cut is broken as a whole.
pub(crate) fn play(
    rt: &impl Print,
    input: &mut impl Read,
    display: &mut Display,
    head: Head,
) -> Result<(), Fault> {
    let mut space = [0u8; FIELD_MAX];
    match head {
        Head::Name(length) => list(display, body(input, &mut space, length)?),
        Head::Received(length) => feed(rt, display, body(input, &mut space, length)?),
        Head::Tick => {
            *display = display::tick(*display);
            Ok(())
        }
    }
}

// The bytes of a name or of a piece that was received.
fn body<'a>(input: &mut impl Read, space: &'a mut [u8], length: usize) -> Result<&'a [u8], Fault> {
    let bytes = space.get_mut(..length).ok_or(Fault::Broken)?;
    fill(input, bytes)?;
    Ok(bytes)
}

// Fills the bytes from the input. Too short an input is a broken history.
fn fill(input: &mut impl Read, bytes: &mut [u8]) -> Result<(), Fault> {
    input.read_exact(bytes).map_err(|_| Fault::Broken)
}

// No byte has come yet, so the display starts anew with each name.
fn list(display: &mut Display, name: &[u8]) -> Result<(), Fault> {
    let watched = board::watch(display.board, name);
    watched.answer.map_err(|_| Fault::Broken)?;
    *display = display::start(watched.board);
    Ok(())
}

fn feed(rt: &impl Print, display: &mut Display, bytes: &[u8]) -> Result<(), Fault> {
    let mut left = bytes;
    // What is left, not a `for`: a call stops after each frame, and says how many bytes it took.
    while !left.is_empty() {
        let taken = take(rt, display, left)?;
        left = &left[taken..];
    }
    Ok(())
}

// One call, whose reply is printed. The contract says how many bytes it takes, and no more: the loop
// needs that to end.
fn take(rt: &impl Print, display: &mut Display, piece: &[u8]) -> io::Result<usize>
    ensures { IfOk result (λ taken. Takes piece.now taken) }
{
    let mut reply = [0u8; REPLY_ROOM];
    let mut packet = [0u8; PAYLOAD_MAX];
    let received = display::receive(*display, piece, &mut reply, &mut packet);
    *display = received.display;
    print_reply(rt, received.answer, &reply)?;
    Ok(received.taken)
}

fn print_reply(rt: &impl Print, answer: Answer, reply: &[u8]) -> io::Result<()> {
    match answer {
        Answer::New { reply: length, .. } | Answer::Again(length) => {
            reports::reply(rt, reply, length)
        }
        Answer::Nothing | Answer::Refused(_) | Answer::Heard(_) => Ok(()),
    }
}

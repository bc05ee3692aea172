// The reader of the line, one byte at a time: what stands since the last flag is unstuffed into the
// content as it comes.
ghost use Rattle.std.specs.Prelude.{◌≡◌};
ghost use Rattle.link.specs.Reader.{behind_flag, next_place, ended_by, step_of, store_of};
ghost use Rattle.link.specs.Steps.{StepsAs};

use frame::content::Fault;
use frame::{CONTENT_MAX, ESCAPE, ESCAPED_DIFFERENCE, ESCAPED_ESCAPE, ESCAPED_FLAG, SENT_MAX};
use refusals::Refusal;

// Where a reader stands: before the first flag; behind a plain byte or a flag; behind an escape
// byte; or in a frame in which refusal 1 or 2 was met.
#[derive(Clone, Copy)]
pub enum Phase {
    Before,
    Plain,
    Escaped,
    BadFraming,
    LongContent,
}

// `length` bytes of content have been unstuffed since the last flag. `place` is that of the last byte,
// counted from the flag as 0; at a fault it stays.
#[derive(Clone, Copy)]
pub struct Reader {
    pub phase: Phase,
    pub length: usize,
    pub place: usize,
}

// What a flag ends: nothing (None), before the first frame and behind another flag; content of so
// many bytes; or a frame that was refused on the way, at a place.
pub type Ended = Result<Option<usize>, Fault>;

// The reader right behind a flag.
pub(crate) fn behind_flag() -> Reader
    ensures { result ≡ behind_flag }
{
    Reader {
        phase: Phase::Plain,
        length: 0,
        place: 0,
    }
}

// What a flag ends. An escape byte right before it is refusal 1, at the flag's place.
pub(crate) fn ended_by_flag(reader: Reader) -> Ended
    ensures { result ≡ ended_by reader }
{
    match reader.phase {
        Phase::Before => Ok(None),
        Phase::Plain if reader.length == 0 => Ok(None),
        Phase::Plain => Ok(Some(reader.length)),
        Phase::Escaped => Err(Fault {
            refusal: Refusal::BadFraming,
            place: next_place(reader.place),
        }),
        Phase::BadFraming => Err(Fault {
            refusal: Refusal::BadFraming,
            place: reader.place,
        }),
        Phase::LongContent => Err(Fault {
            refusal: Refusal::LongContent,
            place: reader.place,
        }),
    }
}

// Takes one byte that is no flag.
pub(crate) fn step(reader: Reader, byte: u8, content: &mut [u8; CONTENT_MAX]) -> Reader
    ensures { StepsAs (step_of reader byte) reader.length content.old result content.new }
{
    let place = next_place(reader.place);
    match reader.phase {
        Phase::Plain => match byte {
            ESCAPE => Reader {
                phase: Phase::Escaped,
                place,
                ..reader
            },
            _ => store(reader.length, place, byte, content),
        },
        Phase::Escaped => match byte {
            ESCAPED_FLAG | ESCAPED_ESCAPE => store(
                reader.length,
                place,
                byte + ESCAPED_DIFFERENCE,
                content,
            ),
            _ => Reader {
                phase: Phase::BadFraming,
                place,
                ..reader
            },
        },
        Phase::Before | Phase::BadFraming | Phase::LongContent => reader,
    }
}

// Puts the byte that stands at a place, or ends there, behind `length` bytes of content; the 388th is
// refusal 2.
fn store(length: usize, place: usize, byte: u8, content: &mut [u8; CONTENT_MAX]) -> Reader
    ensures { StepsAs (store_of length place byte) length content.old result content.new }
{
    if length < CONTENT_MAX {
        content[length] = byte;
        return Reader {
            phase: Phase::Plain,
            length: length + 1,
            place,
        };
    }
    Reader {
        phase: Phase::LongContent,
        length,
        place,
    }
}

// The place behind one. A fault is met within so many sent bytes, so the count ends there and can't
// overflow, whatever the state.
fn next_place(place: usize) -> usize
    ensures { result ≡ next_place place }
{
    if place < SENT_MAX { place + 1 } else { place }
}

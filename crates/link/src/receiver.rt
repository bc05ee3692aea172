// The receiver: a piece of the line's bytes goes in with the link's state, and the state comes back
// with what the piece brought.
ghost use Rattle.std.specs.Prelude.{◌≡◌, length};
ghost use Rattle.link.specs.Receiving.{fresh_link, with_unread_packet, short_received, receive_of, ReceivesAs};

use crate::closing::{State, close};
use crate::counts::{Counts, Event, count, none};
use crate::reader::{Phase, Reader};
use crate::walk::walk;
use frame::content::Fault;
use frame::{CONTENT_MAX, NO_PLACE, PAYLOAD_MAX};
use refusals::Refusal;

// An acknowledgement has six bytes, of which three may be escaped.
pub const REPLY_ROOM: usize = 9;

// The link's state between two pieces: the content since the last flag is the first bytes of
// `content`, as many as the reader says, and `last` is the sequence of the last data frame.
// An array, not FixedBytes: each byte gives a new reader, its length with phase and place, while the
// array is lent and stays where it is.
#[derive(Clone, Copy)]
pub struct Link {
    pub content: [u8; CONTENT_MAX],
    pub reader: Reader,
    pub last: Option<u8>,
    pub counts: Counts,
}

// What a call brought: no frame; a refusal with its place; the sequence of an acknowledgement; the
// length of the reply to a data frame that came again; or the lengths of a new one's reply and
// payload.
// One enum, not a Result: whoever calls tells the five cases apart in one match, and a refusal is
// one of them.
#[derive(Clone, Copy)]
pub enum Answer {
    Nothing,
    Refused(Fault),
    Heard(u8),
    Again(usize),
    New { reply: usize, packet: usize },
}

#[derive(Clone, Copy)]
pub struct Received {
    pub link: Link,
    pub taken: usize,
    pub answer: Answer,
}

// The state before the first byte.
pub fn fresh() -> Link
    ensures { result ≡ fresh_link }
{
    Link {
        content: [0u8; CONTENT_MAX],
        reader: Reader {
            phase: Phase::Before,
            length: 0,
            place: 0,
        },
        last: None,
        counts: none(),
    }
}

// Counts a packet that the layer above could not read.
pub fn count_unread(link: Link) -> Link
    ensures { result ≡ with_unread_packet link }
{
    Link {
        counts: count(link.counts, Event::Unread),
        ..link
    }
}

// Takes bytes of the piece up to the flag that ends a frame, or all of them. A reply is put at the
// start of `reply`, a new packet at the start of `packet`; a buffer that is too short is refusal 7,
// and then nothing is taken.
pub fn receive(link: Link, piece: &[u8], reply: &mut [u8], packet: &mut [u8]) -> Received
    ensures { ReceivesAs (receive_of link piece.now (length reply.old) (length packet.old)) reply.old packet.old result reply.new packet.new }
{
    if packet.len() < PAYLOAD_MAX {
        return short_output(link);
    }
    let Some(reply) = reply.first_chunk_mut::<REPLY_ROOM>() else {
        return short_output(link);
    };
    let mut content = link.content;
    let walked = walk(piece, &mut content, link.reader);
    let before = State {
        last: link.last,
        counts: link.counts,
    };
    let closed = close(walked.ended, &content, before, reply, packet);
    Received {
        link: Link {
            content,
            reader: walked.reader,
            last: closed.state.last,
            counts: closed.state.counts,
        },
        taken: walked.taken,
        answer: closed.answer,
    }
}

fn short_output(link: Link) -> Received
    ensures { result ≡ short_received link }
{
    Received {
        link,
        taken: 0,
        answer: Answer::Refused(Fault {
            refusal: Refusal::ShortOutput,
            place: NO_PLACE,
        }),
    }
}

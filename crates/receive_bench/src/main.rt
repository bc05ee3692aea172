#![tactic(auto)]
// Feeds a stream to a display, in pieces and over and over, and prints the counts and the rows. `make
// bench-receive` times it on long streams, and holds its output to that of a receiver in C.
//
// On standard input stand the length of a piece, how often the stream is fed and the length of the watch
// list, each in four bytes, high byte first, then the watch list and the stream. With a list that is
// refused the board watches nothing.
//
// The stored run is a short stream, three times in pieces of seven bytes, and its output is compared
// with the file `stdout`. By document 01, The receiver, each time brings case 6 with sequence 01, an
// update of h2 that is sent twice, an acknowledgement, an update of a name that is not watched, which
// is unread, and one byte between flags, which is refused by 3.
ghost use Rattle.display.specs.Taking.{Takes};

use cases::{input, line};
use display::{Display, Received};
use frame::PAYLOAD_MAX;
use link::receiver::REPLY_ROOM;

// What is read of the input: its first bytes, if it is longer.
const INPUT_ROOM: usize = 65536;

// The bytes of a number before the watch list.
const NUMBER_SIZE: usize = 4;

// The buffers that a call of the receiver is lent.
#[derive(Clone, Copy)]
struct Buffers {
    reply: [u8; REPLY_ROOM],
    packet: [u8; PAYLOAD_MAX],
}

fn main(rt: HostRuntime) {
    let mut bytes = [0u8; INPUT_ROOM];
    let length = input::read_full(&mut rt.stdin(), &mut bytes);
    feed_input(&rt, &bytes[..length]);
}

// Nothing where the input is cut.
fn feed_input(rt: &impl Print, input: &[u8]) -> Option<()> {
    let (size, rest) = number(input)?;
    let (rounds, rest) = number(rest)?;
    let (listed, rest) = number(rest)?;
    let (list, stream) = rest.split_at_checked(listed)?;
    let fresh = display::start(board::watch_list(list).board);
    display_cases::show_display(rt, feed_rounds(fresh, stream, size, rounds));
    Some(())
}

// The number that the input begins with, and what stands behind it.
fn number(input: &[u8]) -> Option<(usize, &[u8])> {
    let (bytes, rest) = input.split_at_checked(NUMBER_SIZE)?;
    Some((line::number(bytes) as usize, rest))
}

fn feed_rounds(display: Display, stream: &[u8], size: usize, rounds: usize) -> Display {
    let mut buffers = Buffers {
        reply: [0; REPLY_ROOM],
        packet: [0; PAYLOAD_MAX],
    };
    let mut next = display;
    for _ in 0..rounds {
        next = feed(next, stream, size, &mut buffers);
    }
    next
}

// Feeds the stream once, in pieces; a size of 0 means all of it.
fn feed(display: Display, stream: &[u8], size: usize, buffers: &mut Buffers) -> Display {
    if size == 0 {
        return feed_piece(display, stream, buffers);
    }
    let mut next = display;
    for piece in stream.chunks(size) {
        next = feed_piece(next, piece, buffers);
    }
    next
}

// Calls the receiver until the piece is taken.
fn feed_piece(display: Display, piece: &[u8], buffers: &mut Buffers) -> Display {
    let mut next = display;
    let mut left = piece;
    // What is left, not a `for`: a call stops after each frame, and says how many bytes it took.
    while !left.is_empty() {
        let received = call(next, left, buffers);
        next = received.display;
        left = &left[received.taken..];
    }
    next
}

// One call. The contract says how many bytes it takes, and no more: the loop needs that to end.
fn call(display: Display, piece: &[u8], buffers: &mut Buffers) -> Received
    ensures { Takes piece.now result.taken }
{
    display::receive(display, piece, &mut buffers.reply, &mut buffers.packet)
}

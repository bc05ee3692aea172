#![tactic(auto)]
// What the shed display runs: bytes from the module go in by pieces and minutes by ticks, our own
// frames go out by sends and timeouts, over the link's state, the sender and the board.
mod sending;

ghost use Rattle.std.specs.Prelude.{◌≡◌, length};
ghost use Rattle.display.specs.Display.{count_reading, take_reading, keep_board, fresh, tick_display, receive_piece, DisplaysAs};

use frame::content::Fault;
use link::receiver::{self, Link, count_unread};
use refusals::Refusal;
use rows::Board;
use sender::Sender;
pub use sending::{Outgoing, send, timeout};

#[derive(Clone, Copy)]
pub struct Display {
    pub link: Link,
    pub sender: Sender,
    pub board: Board,
}

// What a piece brought: no frame; a refusal and its place; the sequence of an
// acknowledgement; the length of the reply to a data frame that came again; or the lengths of a new
// one's reply and payload, and what the board read in it.
// One enum, not a Result: whoever calls tells the five cases apart in one match, and a refusal is
// one of them. Not one enum with the link's: a new packet has here what the board read too, and a type
// parameter for that would stand in each contract of the link.
#[derive(Clone, Copy)]
pub enum Answer {
    Nothing,
    Refused(Fault),
    Heard(u8),
    Again(usize),
    New {
        reply: usize,
        packet: usize,
        reading: Result<board::Done, Refusal>,
    },
}

#[derive(Clone, Copy)]
pub struct Received {
    pub display: Display,
    pub taken: usize,
    pub answer: Answer,
}

// A display before the first byte, with a board.
pub fn start(board: Board) -> Display
    ensures { result ≡ fresh board }
{
    Display {
        link: receiver::fresh(),
        sender: sender::fresh(),
        board,
    }
}

// A minute has passed: the board is lent for one tick.
pub fn tick(display: Display) -> Display
    ensures { result ≡ tick_display display }
{
    Display {
        board: rows::lent_tick(display.board),
        ..display
    }
}

// Takes bytes of the piece up to the flag that ends a frame, or all of them. Every new packet is
// read by the board at once; one that the board refuses is counted as unread, and its frame stays
// acknowledged and handed out. An acknowledgement that is heard frees the held frame of its sequence.
pub fn receive(display: Display, piece: &[u8], reply: &mut [u8], packet: &mut [u8]) -> Received
    ensures { DisplaysAs (receive_piece display piece.now (length reply.old) (length packet.old)) reply.old packet.old result reply.new packet.new }
{
    let received = receiver::receive(display.link, piece, reply, packet);
    match received.answer {
        receiver::Answer::New {
            reply: replied,
            packet: length,
        } => {
            let reading = board::read(display.board, &packet[..length]);
            hand_up(received, display.sender, replied, length, reading)
        }
        receiver::Answer::Nothing => keep(received, display.sender, display.board, Answer::Nothing),
        receiver::Answer::Refused(fault) => {
            let answer = Answer::Refused(fault);
            keep(received, display.sender, display.board, answer)
        }
        receiver::Answer::Heard(sequence) => {
            let behind = sender::acknowledge(display.sender, sequence);
            keep(received, behind, display.board, Answer::Heard(sequence))
        }
        receiver::Answer::Again(length) => {
            let answer = Answer::Again(length);
            keep(received, display.sender, display.board, answer)
        }
    }
}

// A new packet, with what the board read in it.
fn hand_up(
    received: receiver::Received,
    sender: Sender,
    reply: usize,
    packet: usize,
    reading: board::Reading,
) -> Received
    ensures { result ≡ take_reading received sender reply packet reading }
{
    Received {
        display: Display {
            link: count_reading(received.link, reading.answer),
            sender,
            board: reading.board,
        },
        taken: received.taken,
        answer: Answer::New {
            reply,
            packet,
            reading: reading.answer,
        },
    }
}

// A packet that the board refused is unread.
fn count_reading(link: Link, reading: Result<board::Done, Refusal>) -> Link
    ensures { result ≡ count_reading link reading }
{
    match reading {
        Err(_) => count_unread(link),
        Ok(_) => link,
    }
}

// A call that brought no new packet.
fn keep(received: receiver::Received, sender: Sender, board: Board, answer: Answer) -> Received
    ensures { result ≡ keep_board received sender board answer }
{
    Received {
        display: Display {
            link: received.link,
            sender,
            board,
        },
        taken: received.taken,
        answer,
    }
}

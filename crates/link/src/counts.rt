// The ten counts. Each goes from 65,535 back to 0.
ghost use Rattle.std.specs.Prelude.{◌≡◌};
ghost use Rattle.link.specs.Counts.{no_counts, count_of};

// How many refusals a frame can meet.
pub const FRAME_REFUSALS: usize = 6;

// `refused` holds the counts of refusals 1 to 6, in this order.
#[derive(Clone, Copy)]
pub struct Counts {
    pub new: u16,
    pub again: u16,
    pub heard: u16,
    pub unread: u16,
    pub refused: [u16; FRAME_REFUSALS],
}

// What is counted: a data frame that is new or came again, an acknowledgement that was heard, a
// packet that was not read, a frame that was refused with a number.
// A number, not a Refusal: `count` takes any number, and its contract says what it makes of one that
// no refusal of a frame has.
#[derive(Clone, Copy)]
pub enum Event {
    New,
    Again,
    Heard,
    Unread,
    Refused(u8),
}

pub fn none() -> Counts
    ensures { result ≡ no_counts }
{
    Counts {
        new: 0,
        again: 0,
        heard: 0,
        unread: 0,
        refused: [0u16; FRAME_REFUSALS],
    }
}

// The counts with one event more.
pub fn count(counts: Counts, event: Event) -> Counts
    ensures { result ≡ count_of event counts }
{
    match event {
        Event::New => Counts {
            new: counts.new.wrapping_add(1),
            ..counts
        },
        Event::Again => Counts {
            again: counts.again.wrapping_add(1),
            ..counts
        },
        Event::Heard => Counts {
            heard: counts.heard.wrapping_add(1),
            ..counts
        },
        Event::Unread => Counts {
            unread: counts.unread.wrapping_add(1),
            ..counts
        },
        Event::Refused(number) => count_refused(counts, number as usize),
    }
}

// Counts the refusal of a frame. Another refusal has no count.
fn count_refused(counts: Counts, number: usize) -> Counts
    ensures { result ≡ count_of (Event.Refused number) counts }
{
    let mut next = counts;
    if 0 < number && number <= FRAME_REFUSALS {
        next.refused[number - 1] = next.refused[number - 1].wrapping_add(1);
    }
    next
}

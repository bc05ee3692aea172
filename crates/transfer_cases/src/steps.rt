// What a line does to a transfer and to the lent buffer.
ghost use Rattle.std.specs.Prelude.{◌≡◌, [], ◌∷◌};
ghost use Rattle.transfer.specs.Transfer.{start_of};

use crate::report;
use cases::buffer::UNTOUCHED;
use cases::{line, print};
use transfer::Transfer;

// The longest lent buffer.
pub const FILE_MAX: usize = 514;

// A transfer, and how many bytes the lent buffer has.
#[derive(Clone, Copy)]
pub struct Receiving {
    transfer: Transfer,
    room: usize,
}

// The transfer of the location loc, with an empty buffer.
pub fn first() -> Receiving
    ensures { (result.transfer ≡ (start_of (0x6c ∷ 0x6f ∷ 0x63 ∷ [])).transfer) × (result.room ≡ 0) }
{
    Receiving {
        transfer: transfer::start(b"loc").transfer,
        room: 0,
    }
}

pub(crate) fn start(
    rt: &impl Print,
    state: Receiving,
    line: &[u8],
    location: &[u8],
    file: &mut [u8],
) -> Receiving {
    clear(file);
    let outcome = transfer::start(location);
    report::show(rt, line, outcome);
    print::text(rt, b"\n");
    Receiving {
        transfer: outcome.transfer,
        ..state
    }
}

fn clear(file: &mut [u8]) {
    let most = file.len().min(FILE_MAX);
    file[..most].fill(UNTOUCHED);
}

pub(crate) fn give(
    rt: &impl Print,
    state: Receiving,
    line: &[u8],
    packet: &[u8],
    file: &mut [u8],
) -> Receiving {
    let Some(lent) = file.get_mut(..state.room) else {
        line::not_run(rt, line, b"too long a buffer");
        return state;
    };
    Receiving {
        transfer: take(rt, state.transfer, line, packet, lent),
        ..state
    }
}

fn take(
    rt: &impl Print,
    before: Transfer,
    line: &[u8],
    packet: &[u8],
    file: &mut [u8],
) -> Transfer {
    let outcome = transfer::take(before, packet, file);
    report::show(rt, line, outcome);
    report::show_file(rt, file);
    outcome.transfer
}

pub(crate) fn give_alone(
    rt: &impl Print,
    state: Receiving,
    line: &[u8],
    packet: &[u8],
    file: &mut [u8],
) -> Receiving {
    clear(file);
    let fresh = Receiving {
        transfer: transfer::start(b"loc").transfer,
        ..state
    };
    give(rt, fresh, line, packet, file)
}

pub(crate) fn with_room(state: Receiving, bytes: &[u8]) -> Receiving {
    Receiving {
        room: line::number(bytes) as usize,
        ..state
    }
}

pub(crate) fn with_next(state: Receiving, bytes: &[u8]) -> Receiving {
    let mut transfer = state.transfer;
    transfer.next = line::number(bytes) as usize;
    Receiving { transfer, ..state }
}

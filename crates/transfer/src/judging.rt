// What a packet is to a transfer: the tests of a fragment, in the order of their refusals.
ghost use Rattle.std.specs.Prelude.{◌≡◌};
ghost use Rattle.packet.specs.Packet.{packet_of, packet_items};
ghost use Rattle.transfer.specs.Fragment.{form_of};
ghost use Rattle.transfer.specs.Transfer.{passes_length, is_long, ends_early, judge_end, judge_form, verdict_of};
ghost use Rattle.transfer.specs.Steps.{parts_of, as_verdict};

use crate::fragment::{Candidate, Fragment};
use crate::parts::find_parts;
use crate::state::Transfer;
use packet::{Item, LOCATION_KIND, look_for};
use refusals::Refusal;

// The opcode of a fragment packet. A number, not an enum: a packet may have any opcode.
const FRAGMENT: u8 = 0x0b;

// What a fragment that is accepted does: the place of its Binary, the offset of its bytes and what
// the transfer is then.
#[derive(Clone, Copy)]
pub(crate) struct Accepted {
    pub(crate) binary: Option<Item>,
    pub(crate) offset: usize,
    pub(crate) next: usize,
    pub(crate) declared: Option<usize>,
    pub(crate) last: bool,
}

// Tests the packet and its opcode, then its form as a fragment. `room` is the file buffer's length.
#[tactic(auto, using(crate::proofs::JudgeLaws::read), unfolding(packet::specs::Packet::packet_items))]
pub(crate) fn judge(transfer: Transfer, packet: &[u8], room: usize) -> Result<Accepted, Refusal>
    ensures { result ≡ as_verdict (parts_of packet.now).binary (verdict_of transfer room (packet_of packet.now)) }
{
    let locations = look_for(packet, LOCATION_KIND)?;
    if locations.head.opcode != FRAGMENT {
        return Err(Refusal::OtherOpcode);
    }
    let parts = find_parts(packet, locations)?;
    judge_form(transfer, Candidate { packet, parts }, room)
}

// Tests the form of the candidate, then the fragment against the transfer: location, offset, then
// where it ends.
#[tactic(auto, using(crate::proofs::PartLaws::of_parts, crate::proofs::StepLaws::form_told), unfolding(crate::specs::Transfer::judge_form))]
fn judge_form(
    transfer: Transfer,
    candidate: Candidate<'_>,
    room: usize,
) -> Result<Accepted, Refusal>
    ensures { result ≡ as_verdict (parts_of candidate.entry.packet.now).binary (judge_form transfer room (packet_items candidate.entry.packet.now) (form_of (packet_items candidate.entry.packet.now))) }
{
    let parts = candidate.parts;
    let fragment = candidate.form().ok_or(Refusal::BadFragment)?;
    if !transfer.is_of(candidate.value(parts.location)) {
        return Err(Refusal::OtherLocation);
    }
    if !transfer.goes_on(fragment.offset) {
        return Err(Refusal::WrongOffset);
    }
    let count = candidate.value(parts.binary).len();
    let known = fragment.declared.or(transfer.declared);
    judge_end(room, fragment, parts.binary, count, known)
}

// Tests where a fragment ends whose Binary has `count` bytes. `declared` is the length that is
// known with it.
#[tactic(auto, unfolding(crate::specs::Transfer::judge_end, crate::specs::Transfer::is_long))]
fn judge_end(
    room: usize,
    fragment: Fragment,
    binary: Option<Item>,
    count: usize,
    declared: Option<usize>,
) -> Result<Accepted, Refusal>
    ensures { result ≡ as_verdict binary (judge_end room fragment.offset count declared fragment.last) }
{
    let offset = fragment.offset;
    if is_long(room, offset, count, declared) {
        return Err(Refusal::PastLength);
    }
    let next = offset + count;
    let last = fragment.last;
    if ends_early(declared, last, next) {
        return Err(Refusal::EarlyEnd);
    }
    Ok(Accepted {
        binary,
        offset,
        next,
        declared,
        last,
    })
}

// Whether `count` bytes at `offset` pass the room of the buffer or the declared length, or that the
// room.
#[tactic(auto, unfolding(crate::specs::Transfer::is_long))]
fn is_long(room: usize, offset: usize, count: usize, declared: Option<usize>) -> bool
    ensures { result ≡ is_long room offset count declared }
{
    let Some(end) = offset.checked_add(count) else {
        return true;
    };
    room < end || passes_length(declared, end, room)
}

// Whether a fragment that ends at `end` passes the declared length, or that the buffer's room.
#[tactic(auto, unfolding(crate::specs::Transfer::passes_length))]
fn passes_length(declared: Option<usize>, end: usize, room: usize) -> bool
    ensures { result ≡ passes_length declared end room }
{
    declared.is_some_and(|total| total < end || room < total)
}

// Whether the last fragment ends before the declared length.
#[tactic(auto, unfolding(crate::specs::Transfer::ends_early))]
fn ends_early(declared: Option<usize>, last: bool, end: usize) -> bool
    ensures { result ≡ ends_early declared last end }
{
    declared.is_some_and(|total| last && end < total)
}

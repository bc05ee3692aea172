// What a packet's items are to a fragment: one look at the packet for each kind that a fragment has.
ghost use Rattle.std.specs.Prelude.{◌≡◌};
ghost use Rattle.packet.specs.Packet.{packet_of};
ghost use Rattle.transfer.specs.Steps.{parts_with, right_parts};

use packet::{BINARY_KIND, EOF_KIND, Item, LENGTH_KIND, Look, OFFSET_KIND, look_for};
use refusals::Refusal;

// How many items each fragment has: Location, Offset, Binary.
const REQUIRED_ITEMS: usize = 3;

// How many items a packet has, how many of each kind, and the first of each kind that has a value.
#[derive(Clone, Copy)]
pub(crate) struct Parts {
    pub(crate) all: usize,
    pub(crate) locations: usize,
    pub(crate) offsets: usize,
    pub(crate) binaries: usize,
    pub(crate) lengths: usize,
    pub(crate) ends: usize,
    pub(crate) location: Option<Item>,
    pub(crate) offset: Option<Item>,
    pub(crate) binary: Option<Item>,
    pub(crate) length: Option<Item>,
}

// The parts of a packet in which Locations have been looked for: four looks more.
pub(crate) fn find_parts(packet: &[u8], locations: Look) -> Result<Parts, Refusal>
    ensures { result ≡ parts_with locations (packet_of packet.now) }
{
    let offsets = look_for(packet, OFFSET_KIND)?;
    let binaries = look_for(packet, BINARY_KIND)?;
    let lengths = look_for(packet, LENGTH_KIND)?;
    let ends = look_for(packet, EOF_KIND)?;
    Ok(Parts {
        all: locations.all,
        locations: locations.count,
        offsets: offsets.count,
        binaries: binaries.count,
        lengths: lengths.count,
        ends: ends.count,
        location: locations.first,
        offset: offsets.first,
        binary: binaries.first,
        length: lengths.first,
    })
}

// Whether the items are one Location, one Offset, one Binary, at most one Length and at most one
// EOF, and nothing else.
#[tactic(auto, unfolding(crate::specs::Steps::right_parts))]
pub(crate) fn right_items(parts: Parts) -> bool
    ensures { result ≡ right_parts parts }
{
    parts.locations == 1
        && parts.offsets == 1
        && parts.binaries == 1
        && parts.lengths <= 1
        && parts.ends <= 1
        && parts.all == parts.lengths + parts.ends + REQUIRED_ITEMS
}

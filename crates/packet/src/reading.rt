// Data packets: the reader of a packet's first four bytes, and what its items are asked for.
ghost use Rattle.std.specs.Prelude.{◌≡◌, ◌≤◌, length};
ghost use Rattle.packet.specs.Items.{count_of, value_bytes, value_in};
ghost use Rattle.packet.specs.Packet.{head_length, packet_of, packet_items};
ghost use Rattle.packet.specs.Answers.{find_in, behind_in, item_at, look_of, reading_of};

use crate::items::{Item, read_items};
use crate::{DATA, EOF_KIND};
use refusals::Refusal;

// What the first four bytes of a packet say: its opcode and request id.
#[derive(Clone, Copy)]
pub struct Head {
    pub opcode: u8,
    pub id: u16,
}

// What one look at a packet for a kind gives: its head, how many items it has, how many of the kind,
// the first of these and the item right behind it.
#[derive(Clone, Copy)]
pub struct Look {
    pub head: Head,
    pub all: usize,
    pub count: usize,
    pub first: Option<Item>,
    pub behind: Option<Item>,
}

// Looks at a packet for a kind: refusal 9 or 10, or what the packet is and has of the kind. Inlined: most
// callers know the kind and use a part of the answer.
#[inline(always)]
pub fn look_for(s: &[u8], kind: u8) -> Result<Look, Refusal>
    ensures { result ≡ look_of kind s.now }
{
    let [DATA, opcode, high, low, ..] = *s else {
        return Err(Refusal::NoDataPacket);
    };
    let id = u16::from_be_bytes([high, low]);
    let survey = read_items(s, kind).ok_or(Refusal::BadItems)?;
    Ok(Look {
        head: Head { opcode, id },
        all: survey.all,
        count: survey.count,
        first: survey.first,
        behind: survey.behind,
    })
}

// The opcode and the request id of a packet, or refusal 9 or 10. Whether it is refused does not depend
// on the kind.
pub fn read_packet(s: &[u8]) -> Result<Head, Refusal>
    ensures { result ≡ reading_of (packet_of s.now) }
{
    look_for(s, EOF_KIND).map(|look| look.head)
}

// How many items a packet has; a refused one has none.
pub fn count_all(s: &[u8]) -> usize
    ensures { result ≡ length (packet_items s.now) }
{
    look_for(s, EOF_KIND).map_or(0, |look| look.all)
}

// How many items of the kind a packet has; a refused one has none.
pub fn count(s: &[u8], kind: u8) -> usize
    ensures { result ≡ count_of kind (packet_items s.now) }
{
    look_for(s, kind).map_or(0, |look| look.count)
}

// The first item of the kind in a packet; in a refused one nothing is found.
pub fn find(s: &[u8], kind: u8) -> Option<Item>
    ensures { result ≡ find_in head_length kind (packet_items s.now) }
{
    look_for(s, kind).ok().and_then(|look| look.first)
}

// The item right behind the first item of the kind in a packet; in a refused one nothing is found.
pub fn behind(s: &[u8], kind: u8) -> Option<Item>
    ensures { result ≡ behind_in head_length kind (packet_items s.now) }
{
    look_for(s, kind).ok().and_then(|look| look.behind)
}

// The value of the first item of the kind in a packet; empty where there is none.
#[tactic(auto, using(crate::proofs::FoundLaws::value_found))]
pub fn value(s: &[u8], kind: u8) -> &[u8]
    ensures { result.now ≡ value_in kind (packet_items s.now) }
{
    value_at(s, find(s, kind))
}

// The bytes of an item's value, as many of them as the packet has; empty where nothing was found.
#[tactic(auto, using(slices::proofs::PartLaws::part_rest), unfolding(crate::specs::Answers::item_at, crate::specs::Items::value_bytes))]
pub fn value_at(s: &[u8], item: Option<Item>) -> &[u8]
    ensures { result.now ≡ value_bytes (item_at s.now item) }
{
    let Some(Item { start, length, .. }) = item else {
        return b"";
    };
    if s.len() < start {
        return b"";
    }
    slices::first(&s[start..], length)
}

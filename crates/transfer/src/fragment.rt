// What a packet's parts say as a fragment, and whether they have a good form.
ghost use Rattle.std.proofs.Math.Option.{some};
ghost use Rattle.std.specs.Prelude.{◌≡◌};
ghost use Rattle.packet.specs.Items.{value_bytes};
ghost use Rattle.packet.specs.Packet.{packet_items};
ghost use Rattle.packet.specs.Answers.{item_at};
ghost use Rattle.transfer.specs.Fragment.{number_of, right_binary, form_at, form_of};
ghost use Rattle.transfer.specs.Steps.{as_number, as_form, parts_of};

use crate::parts::{Parts, right_items};
use packet::{Item, valid_location, value_at};

// What a fragment of a good form says beside its Location and its Binary.
#[derive(Clone, Copy)]
pub(crate) struct Fragment {
    pub(crate) offset: usize,
    pub(crate) declared: Option<usize>,
    pub(crate) last: bool,
}

// A packet that may be a fragment, and its parts.
#[derive(Clone, Copy)]
pub(crate) struct Candidate<'a> {
    pub(crate) packet: &'a [u8],
    pub(crate) parts: Parts,
    ghost of_packet: { parts ≡ parts_of packet.now },
}

impl<'a> Candidate<'a> {
    // What the packet's items say as a fragment; none where they have a bad form.
    #[tactic(auto, using(crate::proofs::PartLaws::of_parts, crate::proofs::StepLaws::number_told), unfolding(crate::specs::Fragment::form_of, crate::specs::Fragment::form_at, crate::specs::Fragment::right_location))]
    pub(crate) fn form(&self) -> Option<Fragment>
        ensures { result ≡ as_form (form_of (packet_items self.now.packet.now)) }
    {
        if !right_items(self.parts) {
            return None;
        }
        if !valid_location(self.value(self.parts.location)) {
            return None;
        }
        if !self.right_binary() {
            return None;
        }
        let offset = read_number(self.value(self.parts.offset))?;
        self.form_at(offset)
    }

    // The fragment at the offset: a Length stands only at offset 0.
    #[tactic(auto, using(crate::proofs::PartLaws::of_parts, crate::proofs::StepLaws::number_told), unfolding(crate::specs::Fragment::form_at, crate::specs::Fragment::declaring))]
    fn form_at(&self, offset: usize) -> Option<Fragment>
        ensures { result ≡ as_form (form_at (packet_items self.now.packet.now) (some offset)) }
    {
        let last = 0 < self.parts.ends;
        if self.parts.lengths == 0 {
            return Some(Fragment {
                offset,
                declared: None,
                last,
            });
        }
        if offset != 0 {
            return None;
        }
        let total = read_number(self.value(self.parts.length))?;
        Some(Fragment {
            offset,
            declared: Some(total),
            last,
        })
    }

    // Whether the Binary has bytes, or else an EOF beside it.
    #[tactic(auto, using(crate::proofs::PartLaws::of_parts), unfolding(crate::specs::Fragment::right_binary))]
    fn right_binary(&self) -> bool
        ensures { result ≡ right_binary (packet_items self.now.packet.now) }
    {
        let bytes = self.value(self.parts.binary);
        0 < bytes.len() || 0 < self.parts.ends
    }

    // The bytes of one of its parts.
    pub(crate) fn value(&self, part: Option<Item>) -> &'a [u8]
        ensures { result.now ≡ value_bytes (item_at self.now.packet.now part) }
    {
        value_at(self.packet, part)
    }
}

// An unsigned number of 1, 2 or 4 bytes, high byte first.
#[tactic(auto, unfolding(crate::specs::Fragment::number_of))]
fn read_number(bytes: &[u8]) -> Option<usize>
    ensures { result ≡ as_number (number_of bytes.now) }
{
    match *bytes {
        [a] => Some(a as usize),
        [a, b] => Some(u16::from_be_bytes([a, b]) as usize),
        [a, b, c, d] => Some(u32::from_be_bytes([a, b, c, d]) as usize),
        _ => None,
    }
}

// The control byte: the type of a frame and its two counters.
ghost use Rattle.std.specs.Prelude.{◌≡◌, ◌/◌};
ghost use Rattle.session.specs.Control.{kind_of, control_byte, control_of};

use crate::counters::{AFC, OFC};

// Of what the type, and of what the first counter, is a multiple.
const KIND_UNIT: u8 = 0x40;

const COUNTER_UNIT: u8 = 0x08;

// What the document calls a frame's type, with its number there.
#[derive(Clone, Copy)]
pub enum Kind {
    Reset = 0,
    ResetAck = 1,
    Ack = 2,
    Nack = 3,
}

impl Kind {
    // The type that a control byte says: its two highest bits are the type's number.
    fn in_byte(byte: u8) -> Kind
        ensures { result ≡ kind_of (byte / 0x40) }
    {
        match byte / KIND_UNIT {
            0 => Kind::Reset,
            1 => Kind::ResetAck,
            2 => Kind::Ack,
            _ => Kind::Nack,
        }
    }
}

// What a control byte of the peer's says: the number of its frame, which is one of the peer's, and
// the number that it acknowledges, which is one of ours.
#[derive(Clone, Copy)]
pub struct Control {
    pub kind: Kind,
    pub number: AFC,
    pub acknowledged: OFC,
}

// The control byte of a frame of ours.
#[tactic(auto, using(crate::proofs::ControlLaws::numbered), unfolding(crate::specs::Control::control_byte))]
pub(crate) fn control_byte(kind: Kind, ofc: OFC, afc: AFC) -> u8
    ensures { result ≡ control_byte kind ofc afc }
{
    let outgoing = ofc.0 % COUNTER_UNIT * COUNTER_UNIT;
    let acknowledged = afc.0 % COUNTER_UNIT;
    kind as u8 * KIND_UNIT + outgoing + acknowledged
}

// Reads a control byte of the peer's: its outgoing counter numbers frames of the peer's, its
// acknowledgement counter frames of ours.
#[tactic(auto, unfolding(crate::specs::Control::control_of))]
pub(crate) fn read_control(byte: u8) -> Control
    ensures { result ≡ control_of byte }
{
    let kind = Kind::in_byte(byte);
    let number = AFC(byte / COUNTER_UNIT % COUNTER_UNIT);
    let acknowledged = OFC(byte % COUNTER_UNIT);
    Control {
        kind,
        number,
        acknowledged,
    }
}

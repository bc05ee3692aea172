#![tactic(auto)]
// The refusals of document 01, and of the requests of document 02, each with its number there.
ghost use Rattle.std.specs.Prelude.{◌≡◌};
ghost use Rattle.refusals.specs.Numbers.{number_of};

// Why a call was refused, in the order of the numbers.
#[derive(Clone, Copy, PartialEq, Eq)]
pub enum Refusal {
    // An escape byte is followed by a byte other than 5d or 5e, or a whole frame has wrong flags.
    BadFraming = 1,
    // Unstuffed content passes 387 bytes.
    LongContent = 2,
    // Content has 1 to 3 bytes (0 to 3 in the whole-frame reader).
    ShortContent = 3,
    // The check over the whole content is not 0.
    BadCheck = 4,
    // The type is neither 01 nor 02 (receiver).
    UnknownType = 5,
    // Type 02 with a payload (receiver).
    LoadedAcknowledgement = 6,
    // A lent output is too short.
    ShortOutput = 7,
    // A payload to be written passes 383 bytes.
    LongPayload = 8,
    // A packet has under 4 bytes or its first byte is not 1.
    NoDataPacket = 9,
    // The items do not fill the packet exactly, or an EOF item has a length other than 0.
    BadItems = 10,
    // An opcode that this reader does not read.
    OtherOpcode = 11,
    // The Name is missing, twice, or not a valid name.
    BadName = 12,
    // The value item is missing or bad.
    BadValue = 13,
    // The name is not watched.
    NotWatched = 14,
    // A bad watch list or history file.
    BadList = 15,
    // A fragment of another location.
    OtherLocation = 16,
    // The offset is not the next one, or the transfer is complete.
    WrongOffset = 17,
    // The fragment or the declared length passes the declared length or the lent buffer.
    PastLength = 18,
    // EOF before the declared length.
    EarlyEnd = 19,
    // The fragment or a location has a bad form.
    BadFragment = 20,
    // An ASHv3 frame with no or a wrong first byte, reserved header escape bits set, or a header escape
    // needless or missing.
    BadHeader = 21,
    // An ASHv3 frame of under 7 bytes, or a payload length over 57 or not the bytes present.
    BadLength = 22,
    // In an ASHv3 payload a raw reserved byte, a last escape, or an escape of a byte that needs none.
    BadStuffing = 23,
    // The check bytes of an ASHv3 frame are other than the writer's.
    OtherCheck = 24,
    // A frame to send while one is still waiting for its acknowledgement.
    FrameWaiting = 25,
    // Data to send while the answer to our RESET is awaited.
    ResetAckAwaited = 28,
    // Data to send while two frames are held.
    TwoFramesHeld = 29,
}

impl Refusal {
    // The number of a refusal.
    pub fn number(self) -> u8
        ensures { result ≡ number_of self }
    {
        self as u8
    }
}

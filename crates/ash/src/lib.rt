#![tactic(auto)]
// Frames of the ASHv3 link, which the second radio chip speaks (document 02, C-11; source document
// 002): the frame writer, the reader of one frame, and how long a frame is by its header.
mod check;
mod escapes;
mod header;
pub mod reader;
pub mod size;
mod stuffing;
pub mod writer;

// Opens each frame.
pub const FLAG: u8 = 0x7e;
// Stands before a byte of payload that was escaped.
pub const ESCAPE: u8 = 0x7d;
// The other bytes that the link reserves: two for flow control, one without a name.
pub const XON: u8 = 0x11;

pub const XOFF: u8 = 0x13;

pub const UNNAMED: u8 = 0xf8;

// The most bytes of payload, as they are sent.
pub const PAYLOAD_MAX: usize = 57;
// The bytes in front of the payload: flag, header escape, control, length.
pub const HEADER_SIZE: usize = 4;
// A frame with an empty payload: header and three check bytes.
pub const FRAME_MIN: usize = 7;
// The longest frame.
pub const FRAME_MAX: usize = PAYLOAD_MAX + FRAME_MIN;
// The start value of this link's check.
pub const CHECK_START: u16 = 0;

#![tactic(auto)]
// Frames of the module's UART link (document 01, Frames; source document 000, UART Protocol): the
// frame writer, the reader of one whole frame, and the judge of unstuffed content.
pub mod content;
pub mod reader;
mod unstuffing;
pub mod writer;

// Opens and closes each frame.
pub const FLAG: u8 = 0x7e;
// Stands before a byte that was escaped.
pub const ESCAPE: u8 = 0x7d;
// What a flag and an escape byte become behind an escape byte.
pub const ESCAPED_FLAG: u8 = 0x5e;

pub const ESCAPED_ESCAPE: u8 = 0x5d;
// How much less they are than what they stand for.
pub const ESCAPED_DIFFERENCE: u8 = 0x20;

// What the papers call a frame's type is `kind` in the code: data, or an acknowledgement. Numbers, not
// an enum: the writer takes any type, and the reader of a whole frame gives any.
pub const DATA: u8 = 0x01;

pub const ACKNOWLEDGEMENT: u8 = 0x02;

pub const PAYLOAD_MAX: usize = 383;
// Type and sequence, in front of the payload.
pub const HEADER_SIZE: usize = 2;
// The least content: type, sequence and two bytes of check.
pub const CONTENT_MIN: usize = 4;
// The most: a payload of 383 bytes with them.
pub const CONTENT_MAX: usize = PAYLOAD_MAX + CONTENT_MIN;
// So many sent bytes hold a fault or a byte too many, if they do not end before.
pub const SENT_MAX: usize = 2 * (CONTENT_MAX + 1);
// The place of a refusal that has none.
pub const NO_PLACE: usize = 0;
// The start value of this link's check.
pub const CHECK_START: u16 = 0xffff;

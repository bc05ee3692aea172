// The types of items, as 01 numbers them. An item's type byte is called its kind, since `type` is a
// keyword.
// Numbers, not an enum: an item may have any type byte, and `look_for` takes any.
pub const NAME_KIND: u8 = 0x01;

pub const INTEGER_KIND: u8 = 0x02;

pub const BINARY_KIND: u8 = 0x04;

pub const BOOLEAN_KIND: u8 = 0x0f;

pub const OFFSET_KIND: u8 = 0x11;

pub const LENGTH_KIND: u8 = 0x12;

pub const LOCATION_KIND: u8 = 0x13;

pub const EOF_KIND: u8 = 0x14;

pub const CENTS_KIND: u8 = 0x16;

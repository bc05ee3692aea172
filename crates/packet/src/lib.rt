#![tactic(auto)]
// Items, data packets, names and locations, and the four requests that the display writes.
mod items;
mod kinds;
mod names;
mod reading;
mod requests;

pub use items::Item;
pub use kinds::{
    BINARY_KIND, BOOLEAN_KIND, CENTS_KIND, EOF_KIND, INTEGER_KIND, LENGTH_KIND, LOCATION_KIND,
    NAME_KIND, OFFSET_KIND,
};
pub use names::{LONGEST_LOCATION, valid_location, valid_name};
pub use reading::{
    Head, Look, behind, count, count_all, find, look_for, read_packet, value, value_at,
};
pub use requests::{fetched, file_request, property_get, stop};

// A data packet's first byte. A number, not an enum: a packet may begin with any byte.
const DATA: u8 = 1;

// The bytes before a packet's items: 01, opcode, request id.
const HEAD_LENGTH: usize = 4;

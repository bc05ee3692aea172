#![tactic(auto)]
// The ASHv3 conversation of the second radio chip (document 02, C-21; source document 002): RESET and
// RESET ACK, the two counters, at most two frames held until the peer has acknowledged them. Each
// event takes the session and gives it back with what it brought.
mod answers;
mod control;
pub mod counters;
mod frames;
mod holding;
pub mod ours;
pub mod receiving;
mod replies;
pub mod state;

use ash::{FRAME_MAX, FRAME_MIN};

// The most bytes that an event sends: two frames again, and an empty acknowledgement.
pub const OUTPUT_ROOM: usize = FRAME_MAX + FRAME_MAX + FRAME_MIN;

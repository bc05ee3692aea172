#![tactic(auto)]
// The board: which names it watches, and how it reads packets.
mod list;
mod reading;

pub use list::{NAME_TAG, Watched, watch, watch_list};
pub use reading::{Done, Reading, read};

#![tactic(auto)]
// The file datapoint receiver: a transfer takes the fragments of one file, in order, into a lent
// file buffer.
mod fragment;
mod judging;
mod parts;
mod state;
mod taking;

pub use state::Transfer;
pub use taking::{Outcome, start, take};

#![tactic(auto)]
// The receiver of the module's UART link (document 01, The receiver): it takes the line's bytes in
// pieces of any size, acknowledges data frames, drops repeated ones, and counts.
mod closing;
pub mod counts;
mod data;
pub mod reader;
pub mod receiver;
mod walk;

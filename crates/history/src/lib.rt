#![tactic(auto)]
// Histories of a display: the tagged fields they are stored as, and the lines of text that report
// what a display did with one.
pub mod fields;
pub mod lines;
mod text;

#![tactic(auto)]
// Cases as lines of text. The program `run_cases` reads them from standard input, runs the proved code
// on each, and prints what it answers. This is such a line:
//
//     n two names: 01 00 02 'h '1 01 00 02 'h '2
//
// First stands the key, which says what is run, then a space, the label, which is printed, and a
// colon. Behind it stands each byte of the case: a space and two hexadecimal digits, or a space, a
// quote and the byte itself.
//
// Printing, a line and its bytes stay three parameters of a case's function: most need two of them.
pub mod buffer;
pub mod input;
pub mod line;
pub mod print;

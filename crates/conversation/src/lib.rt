#![tactic(auto)]
// The ledger of the ASHv3 conversation (document 02, C-21) and the theorem over every list of events.
// This crate has no code: its definitions are in specs/, its theorems in proofs/.

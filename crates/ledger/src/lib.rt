#![tactic(auto)]
// The ledger of document 01 and the theorem over every list of calls. This crate has no code: its
// definitions are in specs/, its theorems in proofs/.

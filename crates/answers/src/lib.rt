#![tactic(auto)]
// The known answers of document 01. This crate has no code: the table is in specs/, and that each
// answer is the one computed from the definitions is proved in proofs/.

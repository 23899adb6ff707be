// The integer toolkit: the vocabulary of whole numbers that every definition uses (specs/), its
// laws (proofs/), and the clamp of a machine's number.

#![tactic(auto)]

pub mod signed;

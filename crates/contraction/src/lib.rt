// Clauses in hand: one compared with those in the tables, one contracted along a reflexive role atom.
#![tactic(auto)]

pub mod clause;
pub mod contract;

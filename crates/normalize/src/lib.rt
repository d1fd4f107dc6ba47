// normalize.rs: negation normal form over the pool in scratch.
#![tactic(auto)]

pub mod forms;
mod known;
pub mod nnf;

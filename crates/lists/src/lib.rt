// clause.rs: the arms of clausify_axiom that go over a list.
#![tactic(auto)]

pub mod disjoints;
pub mod equivalents;
pub mod roles;
pub mod unions;

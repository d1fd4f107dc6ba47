// The rules of clause.rs for one axiom that only read the pool.
#![tactic(auto)]

pub mod bodies;
pub mod domain;
pub mod roles;

// clause.rs: what decompose_wide_bodies calls.
#![tactic(auto)]

pub mod atom;
pub mod edges;
pub mod filter;
pub mod insert;
pub mod layout;
pub mod memo;
pub mod pack;
pub mod place;
pub mod renumber;
pub mod vars;

// clause.rs: emit_head and head_atom_for where nothing is named, and what goes on after a name.
#![tactic(auto)]

pub mod after;
pub mod disjunct;
pub mod form;
pub mod leaf;
pub mod read;

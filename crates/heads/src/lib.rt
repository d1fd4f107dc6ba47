// clause.rs: emit_head, head_atom_for and atomic_name_of.
#![tactic(auto)]

pub mod emit;
pub mod limit;

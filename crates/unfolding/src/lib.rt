// clause.rs: apply_reflexive_roles.
#![tactic(auto)]

pub mod unfold;

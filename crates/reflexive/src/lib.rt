// clause.rs: reflexive_role_ids.
#![tactic(auto)]

pub mod ids;

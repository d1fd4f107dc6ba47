// clause.rs: name_branches.
#![tactic(auto)]

pub mod name;

// clause.rs: clausify_gci and absorb_hard_antecedent.
#![tactic(auto)]

pub mod absorb;
pub mod gci;
pub mod parts;

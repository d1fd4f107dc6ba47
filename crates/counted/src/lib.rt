// clause.rs: add_counted_self_loops.
#![tactic(auto)]

pub mod loops;

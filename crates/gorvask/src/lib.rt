// The library for callers in C and Rust: every function that is exported. None asks anything of what it is lent. Each contract gives
// the reply, and every byte of every table at exit, as a function of the input's bytes and the tables' lengths alone.
#![tactic(auto)]

mod reply;
pub mod sessions;
pub mod trial;
pub mod with_stats;

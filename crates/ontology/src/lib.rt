// What an accepted deck says, in scratch: concept records in the pool, axioms and key marks.
#![tactic(auto)]

pub mod axiom;
mod axiom_lines;
mod concepts;
pub mod key;
mod keys;
pub mod lines;
pub mod load;
mod record;
mod row;

// normalize.rs: the visited parts of a concept, and the concept made again of their normal forms.
#![tactic(auto)]

pub mod parts;
pub mod rebuild;

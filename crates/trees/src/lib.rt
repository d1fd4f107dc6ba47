// clause.rs: the tree below a root, and its atoms arranged by the root's children.
#![tactic(auto)]

pub mod children;
pub mod group;
pub mod tree;

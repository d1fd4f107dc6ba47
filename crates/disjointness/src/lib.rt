// The rules of clause.rs for disjoint classes and disjoint unions, one pair or member at a time.
#![tactic(auto)]

pub mod cover;
pub mod member;
pub mod pairs;

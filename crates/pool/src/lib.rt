// The pool of concepts in the words of scratch: records, the members of lists, and an index by hash.
#![tactic(auto)]

pub mod index;
pub mod intern;
pub mod joint;
pub mod layout;
pub mod make;
mod marks;
mod place;
pub mod record;

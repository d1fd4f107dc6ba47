// The data that every pass shares: roles, atoms, an atom's record in a table, deferral kinds, refusals, options, the counters and the passes' answers.
#![tactic(auto)]

pub mod answer;
pub mod atom;
pub mod counters;
pub mod deferral;
pub mod options;
pub mod record;
pub mod refusal;
pub mod role;
pub mod scratch;

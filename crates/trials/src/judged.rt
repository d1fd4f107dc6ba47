// What a test says.
use sets::verdict::Broken;

// All hold, or what is broken: its at is the axiom's line or the clause's number.
pub type Verdict = Result<(), Broken>;

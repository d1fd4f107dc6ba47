// The regions of scratch, by their first words; each ends where the next begins. docs/ARCHITECTURE.md says what they hold.
// Scratch is one lent buffer, and each function asks for the part of it that it reads: a type with a least length would be one for each
// part, or ask more of callers.

// Concept records, list members and their index.
pub const POOL: usize = 0;

// A word for each concept, while And or Or is made.
pub const MARKS: usize = 30720;

// A word for each class: 1 where it is a data key.
pub const KEYS: usize = 32768;

// Where each role is mapped to, and whether it is reflexive.
pub const ROLES: usize = 36864;

// Two words for each concept: its alternatives and their variables as an antecedent.
pub const ALTERNATIVES: usize = 38912;

// For each axiom where its numbers begin and how many they are; then the numbers.
pub const AXIOMS: usize = 43008;

pub const NUMBERS: usize = 45056;

// What the reader keeps of a deck's lines.
pub const LINES: usize = 51200;

// Lists whose members are being normalised.
pub const STACK: usize = 58368;

// Two words for each concept: its normal form and that of its negation, with the visits they take.
pub const NORMAL_FORMS: usize = 76800;

// Bodies and heads that are being made.
pub const HANDS: usize = 81000;

// The limits that wait: a count, then the filler and the name of each. The wide pass ends below it.
pub const LIMITS: usize = 300000;

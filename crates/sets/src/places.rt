// Where the words of a trial stand in scratch, beside the loaded deck. Sets are counted by two words.

// A set for each concept.
pub const CONCEPTS: usize = 40960;

// A set for each of four variables, and 64 for each of their six pairs.
pub const VARS: usize = 43008;

pub const PAIRS: usize = 43072;

// The elements that are shown, a word each.
pub const SHOWN: usize = 88064;

// From where a chain can still be broken: a set for each number of its parts that are left.
pub const LEFT: usize = 44544;

// The numbers of one line, a word each, and the word behind them.
pub const LINE: usize = 90112;

pub const LINE_END: usize = 131072;

// 64 sets for each role code: what an element is related to.
pub const ROWS: usize = 65536;

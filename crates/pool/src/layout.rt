// Where the pool stands in the words of scratch. Records begin at word 0. Scratch is one lent buffer, and each function asks for the part
// of it that it reads: a type with a least length would be one for each part, or ask more of callers.

// The words of a record.
pub const RECORD: usize = 6;

// The first word of the lists' members, and of the index's heads.
pub const MEMBERS: usize = 12288;

pub const HEADS: usize = 28672;

// The first word above the pool.
pub const POOL: usize = 30720;

pub const MOST_CONCEPTS: u32 = 2048;

// How many words the marks have: one for each concept.
pub const MARK_WORDS: usize = 2048;

pub const MOST_MEMBERS: usize = 16384;

// The kinds of concepts.
pub const TOP: u32 = 1;

pub const BOT: u32 = 2;

pub const ATOMIC: u32 = 3;

pub const NOMINAL: u32 = 4;

pub const SELF: u32 = 5;

pub const NOT: u32 = 6;

pub const AND: u32 = 7;

pub const OR: u32 = 8;

pub const SOME: u32 = 9;

pub const ALL: u32 = 10;

pub const MIN: u32 = 11;

pub const MAX: u32 = 12;

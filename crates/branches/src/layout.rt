// Where the pass keeps its work in the words of scratch. Everything else there is done with.
// (With no heap, scratch is one buffer that the caller lends: each contract asks that it reaches as far as the function goes.)

// The named branches: for each the count of its body's atoms, then a word for each atom.
pub const NAMED: usize = 0;

pub const MOST_NAMED: usize = 262144;

// The filter: a word for each hash, 1 where a named branch's body has the hash.
pub const FILTER: usize = 262144;

// Records of six words: the body under work, and a copy while it is arranged.
pub const BODY: usize = 49152;

pub const COPY: usize = 49408;

// Words: the bound variables, for each the child of the root above it, the variables met, those to keep, a renumbered body. (BOUND and TOPS
// are two runs and not one of pairs: the search goes over BOUND alone.)
pub const BOUND: usize = 297984;

pub const TOPS: usize = 298241;

pub const MET: usize = 298498;

pub const KEEP: usize = 299011;

pub const RENUMBERED: usize = 299523;

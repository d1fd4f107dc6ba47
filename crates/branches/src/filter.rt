// The filter before the search among the named branches.
// Clauses that repeat stay clauses: each function asks for the length that it reads; a type with a number's bound would be made at each
// read and opened at each use.
ghost use Rattle.std.specs.Prelude.{◌≡◌, ◌*◌, ◌<◌, ◌≤◌, length, replicate};
ghost use Rattle.std.proofs.lemmas.List.Edits.{sets};
ghost use Rattle.words.specs.Words.{words};
ghost use Rattle.branches.specs.Layout.{filter_at, renumbered_at, work_words};
ghost use Rattle.branches.specs.Hash.{hash_of};
ghost use Rattle.branches.specs.Renumbered.{run};

use crate::layout::{FILTER, RENUMBERED};

// No word is set.
pub fn clear(scratch: &mut [u8])
    requires { 4 * work_words ≤ length scratch.old }
    ensures { words scratch.new ≡ sets (words scratch.old) filter_at (replicate 32768 0) }
{
    words::clear_words(scratch, FILTER, 32768);
}

// The hash of the `count` renumbered words. Not shared with a row's of a deck: its factor, modulus and words are others, and each would be
// an argument. Modulo 2^32 a role, whose code stands in the high bits, would hardly tell. (A loop: as a
// fold, its closure would have to bound h in clauses of its own.)
pub fn hash(scratch: &[u8], count: u32) -> usize
    requires { (count ≤ 256) × (4 * work_words ≤ length scratch.now) }
    ensures { (result ≡ hash_of (run (words scratch.now) renumbered_at count)) × (result < 32768) }
{
    let mut h: usize = 0;
    for i in 0..count as usize {
        let w = words::get_word(scratch, RENUMBERED + i) as usize;
        h = 1937098319 * (h + w) % 4294967291;
    }
    h / 131072
}

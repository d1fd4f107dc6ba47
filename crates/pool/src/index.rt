// The search for the equal record, by hash.
// Clauses that repeat stay clauses: each function asks for the length that it reads; `Asked` and `Ready` are about one moment of what is
// lent; a type with a number's bound would be made at each read and opened at each use. k is only for the contracts: they tell the
// concepts by it.
ghost use Rattle.std.specs.Prelude.{◌≡◌, ◌+◌, ◌*◌, ◌≤◌, ◌<◌, length};
ghost use Rattle.words.specs.Words.{words};
ghost use Rattle.rules.specs.Concept.{same_concept};
ghost use Rattle.rules.specs.Pool.{find};
ghost use Rattle.pool.specs.Layout.{run, count_of, concept_over, concept_at, pool_of};
ghost use Rattle.pool.specs.Index.{mixed, record_hash, hash_by};
ghost use Rattle.pool.specs.Held.{Ready, Asked, found_of};

use crate::layout::MEMBERS;
use crate::record;
use crate::record::Record;
use ir::counters::Counters;
use ir::record::same_words;

// One word more in a hash.
fn mix(h: usize, x: u32) -> usize
    requires { h < 2048 }
    ensures { result ≡ mixed h x }
{
    (31 * h + x as usize) % 2048
}

fn hash_record(x: Record) -> usize
    ensures { result ≡ record_hash x }
{
    let h = mix(mix(0, x.kind), x.role);
    mix(mix(h, x.number), x.child)
}

// The hash so far, and the words of a list. Its place and its count stay two numbers here and in what calls this, as in the definitions'
// `run`: a struct of both would be made anew at each call.
fn hash_run(scratch: &[u8], start: usize, at: usize, count: u32) -> usize
    requires { (start < 2048) × (4 * (at + count) ≤ length scratch.now) }
    ensures { (result ≡ hash_by start (run (words scratch.now) at count)) × (result < 2048) }
{
    let mut h = start;
    for i in 0..count as usize {
        h = mix(h, words::get_word(scratch, at + i));
    }
    h
}

// The hash of a record and its list.
pub fn hash(scratch: &[u8], x: Record, at: usize) -> usize
    requires { 4 * (at + count_of x) ≤ length scratch.now }
    ensures { (result ≡ hash_by (record_hash x) (run (words scratch.now) at (count_of x))) × (result < 2048) }
{
    hash_run(scratch, hash_record(x), at, x.count())
}

// Whether concept c is the concept of a record and its list. Word by word: it stops at the first that differs, where a derived equality
// would first read all four.
fn same(scratch: &[u8], k: Counters, c: u32, x: Record, at: usize) -> bool
    requires { Ready scratch.now k × Asked scratch.now x at × (c < k.concepts) }
    ensures { result ≡ same_concept (concept_over (words scratch.now) at x) (concept_at (words scratch.now) c) }
{
    if record::kind(scratch, c) != x.kind {
        return false;
    }
    if record::role(scratch, c) != x.role {
        return false;
    }
    if record::number(scratch, c) != x.number {
        return false;
    }
    let d = record::child(scratch, c);
    if x.is_list() {
        let run = MEMBERS + d as usize;
        return same_words(scratch, at, scratch, run, x.number as usize);
    }
    d == x.child
}

// The concept that equals a record and its list.
pub fn find(scratch: &[u8], k: Counters, x: Record, at: usize) -> Option<u32>
    requires { Ready scratch.now k × Asked scratch.now x at }
    ensures { found_of result ≡ find (concept_over (words scratch.now) at x) (pool_of (words scratch.now) k.concepts) }
{
    // along a chain of links, for which there is no range; not shared with the deck's `repeats`: the test and the link would be closures
    let mut next = record::head(scratch, hash(scratch, x, at));
    while let Some(c) = next {
        if same(scratch, k, c, x, at) {
            return Some(c);
        }
        next = record::link(scratch, c);
    }
    None
}

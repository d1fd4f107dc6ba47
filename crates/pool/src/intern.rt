// Interning: the equal record, or one more at the end.
// Clauses that repeat stay clauses: each function asks for the length that it reads; `Asked` and `Ready` are about one moment of what is
// lent; a type with a number's bound would be made at each read and opened at each use.
// `interned` and `scratch_unchanged` stay two clauses: each caller cites them by their names.
ghost use Rattle.std.specs.Prelude.{◌≡◌, ◌+◌, ◌*◌, ◌≤◌, ◌<◌, length, drop};
ghost use Rattle.std.proofs.Math.Option.{none};
ghost use Rattle.std.proofs.lemmas.List.Edits.{sets};
ghost use Rattle.words.specs.Words.{words};
ghost use Rattle.rules.specs.Pool.{most_concepts, most_members, find, intern_raw};
ghost use Rattle.rules.specs.Deck.{parts_of};
ghost use Rattle.rules.specs.Invariants.{Each};
ghost use Rattle.pool.specs.Layout.{pool_words, pool_bytes, count_of, concept_over, pool_of, six_of, record_put};
ghost use Rattle.pool.specs.Held.{Ready, Asked};
ghost use Rattle.pool.specs.Answers.{Added, Interned};
ghost use Rattle.ir.specs.Answer.{answer};

use crate::index;
use crate::layout::{HEADS, MEMBERS, MOST_CONCEPTS, MOST_MEMBERS, RECORD};
use crate::record::Record;
use ir::counters::Counters;
use ir::refusal::Refusal;

// Record c, first in the index under hash h.
fn put_record(scratch: &mut [u8], c: u32, h: usize, x: Record, used: u32)
    requires { (c < most_concepts) × (h < 2048) × (pool_bytes ≤ length scratch.old) }
    ensures { words scratch.new ≡ record_put (words scratch.old) c h x used }
{
    let link = words::get_word(scratch, HEADS + h);
    words::put_words(
        scratch,
        RECORD * (c as usize),
        &[x.kind, x.role, x.number, x.child, used, link],
    );
    words::put_word(scratch, HEADS + h, c + 1);
}

// One concept more, which no record equals.
pub fn add(scratch: &mut [u8], k: Counters, x: Record, at: usize)
    requires ready { Ready scratch.old k × Asked scratch.old x at }
    requires concepts_lt_most_concepts { (k.concepts < most_concepts) × (k.members + count_of x ≤ most_members) }
    requires each { Each (λ d. d < k.concepts) (parts_of (concept_over (words scratch.old) at x)) }
    requires concepts_value { find (concept_over (words scratch.old) at x) (pool_of (words scratch.old) k.concepts) ≡ none }
    ensures { Added k (count_of x) (concept_over (words scratch.old) at x) (words scratch.old) (words scratch.new) }
{
    let h = index::hash(scratch, x, at);
    let used = k.members;
    let count = x.count();
    let to = MEMBERS + used as usize;
    words::move_words(scratch, at, to, count as usize);
    put_record(scratch, k.concepts, h, x.starts_at(used), used + count);
}

// The same, where there is room.
fn intern_new(scratch: &mut [u8], k: &mut Counters, x: Record, at: usize) -> Result<u32, Refusal>
    requires ready { Ready scratch.old k.old × Asked scratch.old x at }
    requires each { Each (λ d. d < k.old.concepts) (parts_of (concept_over (words scratch.old) at x)) }
    requires concepts_value { find (concept_over (words scratch.old) at x) (pool_of (words scratch.old) k.old.concepts) ≡ none }
    ensures interned { Interned k.old (intern_raw (concept_over (words scratch.old) at x)) (words scratch.old) (words scratch.new) (answer k.new result) }
    ensures scratch_unchanged { drop pool_words (words scratch.new) ≡ drop pool_words (words scratch.old) }
{
    let n = k.concepts;
    let count = x.count();
    if MOST_CONCEPTS <= n || MOST_MEMBERS < k.members as usize + count as usize {
        return Err(Refusal::PoolFull);
    }
    add(scratch, *k, x, at);
    k.intern(count);
    Ok(n)
}

// The concept of a record and its list, which stands from word `at` on.
pub fn intern(scratch: &mut [u8], k: &mut Counters, x: Record, at: usize) -> Result<u32, Refusal>
    requires ready { Ready scratch.old k.old × Asked scratch.old x at }
    requires each { Each (λ d. d < k.old.concepts) (parts_of (concept_over (words scratch.old) at x)) }
    ensures interned { Interned k.old (intern_raw (concept_over (words scratch.old) at x)) (words scratch.old) (words scratch.new) (answer k.new result) }
    ensures scratch_unchanged { drop pool_words (words scratch.new) ≡ drop pool_words (words scratch.old) }
{
    match index::find(scratch, *k, x, at) {
        Some(c) => Ok(c),
        None => intern_new(scratch, k, x, at),
    }
}

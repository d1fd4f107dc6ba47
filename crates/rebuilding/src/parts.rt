// The parts of a concept that are visited, by the rows of the class-expression table of OWL 2 Direct Semantics, in its order. Where they
// stand and how many there are, two words of its record say: an iterator would be made of the same two. `negated` chooses what the
// clauses' definitions choose by the same Bool: a closure would need a name for what each of the two says. Kinds are the record's numbers,
// by pool's names: an enum would be made by a match over the same numbers. Scratch and counters are each by itself: both change between two
// uses, and a struct of them would be made anew at each call. k is only for the contracts: they tell the concepts by it.
// Clauses that repeat stay clauses: `Normalizing` and `Ready` are about one moment of what is lent; a type with a number's bound would be
// made at each read and opened at each use.
ghost use Rattle.std.specs.Prelude.{◌≡◌, ◌+◌, ◌*◌, ◌≤◌, ◌<◌, length, set};
ghost use Rattle.std.proofs.lemmas.List.Edits.{sets};
ghost use Rattle.words.specs.Words.{words};
ghost use Rattle.pool.specs.Layout.{concept_at};
ghost use Rattle.pool.specs.Held.{Ready};
ghost use Rattle.rebuilding.specs.Steps.{visited_parts, part_negated};
ghost use Rattle.rebuilding.specs.States.{Normalizing};

use ir::counters::Counters;
use pool::layout::{ALL, AND, MAX, MEMBERS, MIN, NOMINAL, NOT, OR, SELF, SOME};
use pool::record;

// One part becomes the word at `top`; how many: 1.
fn put_one(scratch: &mut [u8], top: usize, part: u32) -> u32
    requires { 4 * (top + 1) ≤ length scratch.old }
    ensures value { result ≡ 1 }
    ensures scratch_after { words scratch.new ≡ set (words scratch.old) top part }
{
    words::put_word(scratch, top, part);
    1
}

// The visited parts of concept c become the words from `top` on; how many.
pub fn put_parts(scratch: &mut [u8], k: Counters, top: usize, c: u32, negated: bool) -> u32
    requires { Normalizing scratch.old k top c }
    ensures value { result ≡ length (visited_parts negated (concept_at (words scratch.old) c)) }
    ensures scratch_after { words scratch.new ≡ sets (words scratch.old) top (visited_parts negated (concept_at (words scratch.old) c)) }
{
    let number = record::number(scratch, c);
    let child = record::child(scratch, c);
    match record::kind(scratch, c) {
        // intersection, union
        AND | OR => {
            words::move_words(scratch, MEMBERS + child as usize, top, number as usize);
            number
        }
        // complement
        NOT => put_one(scratch, top, child),
        // individuals
        NOMINAL => 0,
        // Some, All
        SOME | ALL => put_one(scratch, top, child),
        // Self
        SELF => 0,
        // Min: nothing of the complement of at least 0
        MIN if negated && number == 0 => 0,
        MIN => put_one(scratch, top, child),
        // Max
        MAX => put_one(scratch, top, child),
        // Top, Bot and classes
        _ => 0,
    }
}

// Whether the parts of concept c are negated.
pub fn part_negated(scratch: &[u8], k: Counters, c: u32, negated: bool) -> bool
    requires { Ready scratch.now k × (c < k.concepts) }
    ensures { result ≡ part_negated negated (concept_at (words scratch.now) c) }
{
    match record::kind(scratch, c) {
        // intersection, union
        AND | OR => negated,
        // complement
        NOT => !negated,
        // individuals
        NOMINAL => negated,
        // Some, All
        SOME | ALL => negated,
        // Self
        SELF => negated,
        // Min, Max
        MIN | MAX => false,
        // Top, Bot and classes
        _ => negated,
    }
}

// A concept made again of its parts' normal forms: a match on the kind, by the rows of the class-expression table of OWL 2 Direct
// Semantics, in its order, and in each the concept before its complement. `negated` chooses what `rebuilt` chooses by the same Bool; for
// it, for kinds, and for scratch and counters each by itself, what the head of parts says holds here too.
// Clauses that repeat stay clauses: `Ready` and `Rebuilding` are about one moment of what is lent; a type with a number's bound would be
// made at each read and opened at each use. A run stays its first word and its count, as in the definitions.
ghost use Rattle.std.specs.Prelude.{◌≡◌, true, ◌∷◌, [], ◌<◌, drop};
ghost use Rattle.words.specs.Words.{words};
ghost use Rattle.ir.specs.Scratch.{keys_at};
ghost use Rattle.pool.specs.Layout.{run, field, concept_at};
ghost use Rattle.pool.specs.Held.{Ready};
ghost use Rattle.pool.specs.Answers.{Interned};
ghost use Rattle.rebuilding.specs.Steps.{rebuilt};
ghost use Rattle.rebuilding.specs.States.{Rebuilding};
ghost use Rattle.ir.specs.Answer.{answer};

use ir::counters::Counters;
use ir::refusal::Refusal;
use ir::scratch::MARKS;
use pool::layout::{ALL, AND, BOT, MAX, MIN, NOMINAL, NOT, OR, SELF, SOME, TOP};
use pool::{joint, make, record};

// Concept c, of its n parts' normal forms, the words from `top` on. The word at `top` is read of any concept: only a restriction's is its
// part's.
pub fn rebuild(
    scratch: &mut [u8],
    k: &mut Counters,
    top: usize,
    c: u32,
    n: u32,
    negated: bool,
) -> Result<u32, Refusal>
    requires { Rebuilding scratch.old k.old top c n negated }
    ensures interned { Interned k.old (rebuilt negated c (concept_at (words scratch.old) c) (run (words scratch.old) top n)) (words scratch.old) (words scratch.new) (answer k.new result) }
    ensures scratch_unchanged { drop keys_at (words scratch.new) ≡ drop keys_at (words scratch.old) }
{
    let role = record::role(scratch, c);
    let number = record::number(scratch, c);
    let part = words::get_word(scratch, top);
    match (record::kind(scratch, c), negated) {
        // intersection
        (AND, false) => joint::mk_and(scratch, k, MARKS, top, n),
        (AND, true) => joint::mk_or(scratch, k, MARKS, top, n),
        // union
        (OR, false) => joint::mk_or(scratch, k, MARKS, top, n),
        (OR, true) => joint::mk_and(scratch, k, MARKS, top, n),
        // complement
        (NOT, _) => Ok(part),
        // individuals
        (NOMINAL, false) => Ok(c),
        (NOMINAL, true) => make::mk_not(scratch, k, c),
        // Some
        (SOME, false) => make::mk_some(scratch, k, role, part),
        (SOME, true) => make::mk_all(scratch, k, role, part),
        // All
        (ALL, false) => make::mk_all(scratch, k, role, part),
        (ALL, true) => make::mk_some(scratch, k, role, part),
        // Self
        (SELF, false) => Ok(c),
        (SELF, true) => make::mk_not(scratch, k, c),
        // Min
        (MIN, false) => make::mk_min(scratch, k, number, role, part),
        (MIN, true) if number == 0 => make::mk_bot(scratch, k),
        (MIN, true) => make::mk_max(scratch, k, number - 1, role, part),
        // Max
        (MAX, false) => make::mk_max(scratch, k, number, role, part),
        (MAX, true) => make::mk_min(scratch, k, number + 1, role, part),
        // Top, Bot and classes
        (TOP, false) => Ok(c),
        (TOP, true) => make::mk_bot(scratch, k),
        (BOT, false) => Ok(c),
        (BOT, true) => make::mk_top(scratch, k),
        (_, false) => Ok(c),
        (_, true) => make::mk_not(scratch, k, c),
    }
}

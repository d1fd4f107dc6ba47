// DisjointUnion: pairs, members, covering.
// A run in scratch is its first word and its count, two numbers, as the definitions' `run` has it.
// Clauses that repeat stay clauses: `Clausifying` and `Listed` are about one moment of what is lent; a type with a number's bound would be
// made at each read and opened at each use.
ghost use Rattle.std.specs.Prelude.{◌+◌, ◌<◌, ◌^◌, length};
ghost use Rattle.words.specs.Words.{words};
ghost use Rattle.rules.specs.Base.{for_each};
ghost use Rattle.rules.specs.Concept.{DisjointUnion};
ghost use Rattle.rules.specs.Axioms.{union_member, clausify_axiom};
ghost use Rattle.pool.specs.Layout.{run};
ghost use Rattle.hands.specs.Hands.{four_of};
ghost use Rattle.axioms.specs.Wholes.{Clausifying, ClausifyingAfter, Clausified};
ghost use Rattle.lists.specs.Listed.{Listed};
ghost use Rattle.ir.specs.Answer.{done};
ghost use Rattle.tables.specs.Lending.{SameReferences};

use crate::disjoints;
use disjointness::{cover, member};
use ir::refusal::Refusal;
use tables::lent::Tables;

// Each member is below the class.
fn union_members(
    lent: &mut Tables<'_>,
    scratch: &mut [u8],
    class: u32,
    at: usize,
    count: u32,
) -> Result<(), Refusal>
    requires { Clausifying scratch.old lent.old.counters × Listed (words scratch.old) lent.old.counters at count × (class + 1 < 2 ^ 32) }
    ensures references { SameReferences lent.old lent.new }
    ensures fact { let old = four_of (words scratch.old) lent.old in
        let new = four_of (words scratch.new) lent.new in
        Clausified (λ env. for_each (union_member env class) (run old.scratch at count)) lent.old.counters old new (done lent.new.counters result) }
    ensures clausifying_after { ClausifyingAfter scratch.new (done lent.new.counters result) }
{
    for i in 0..count {
        let m = words::get_word(scratch, at + i as usize);
        member::union_member(lent, scratch, class, m)?;
    }
    Ok(())
}

// The members are the `count` words from `at` on.
pub fn union(
    lent: &mut Tables<'_>,
    scratch: &mut [u8],
    class: u32,
    at: usize,
    count: u32,
) -> Result<(), Refusal>
    requires { Clausifying scratch.old lent.old.counters × Listed (words scratch.old) lent.old.counters at count × (class + 1 < 2 ^ 32) }
    ensures references { SameReferences lent.old lent.new }
    ensures fact { let old = four_of (words scratch.old) lent.old in
        let new = four_of (words scratch.new) lent.new in
        Clausified (λ env. clausify_axiom env (DisjointUnion class (run old.scratch at count))) lent.old.counters old new (done lent.new.counters result) }
    ensures clausifying_after { ClausifyingAfter scratch.new (done lent.new.counters result) }
{
    disjoints::disjoint(lent, scratch, at, count, false)?;
    union_members(lent, scratch, class, at, count)?;
    lent.counters.restart_vars();
    cover::cover(lent, scratch, class, at, count)
}

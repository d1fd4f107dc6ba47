// EquivalentClasses: all ordered pairs of different places.
// A run in scratch is its first word and its count, two numbers, as the definitions' `run` has it.
// Clauses that repeat stay clauses: `Clausifying` and `Listed` are about one moment of what is lent; a type with a number's bound would be
// made at each read and opened at each use.
ghost use Rattle.std.specs.Prelude.{[], ◌+◌, ◌-◌, ◌<◌, length, get_or};
ghost use Rattle.words.specs.Words.{words};
ghost use Rattle.rules.specs.Base.{for_each};
ghost use Rattle.rules.specs.State.{Env};
ghost use Rattle.rules.specs.Axioms.{C, numbered, with_others, ordered_pairs, clausify_gci};
ghost use Rattle.pool.specs.Layout.{run};
ghost use Rattle.hands.specs.Hands.{four_of};
ghost use Rattle.axioms.specs.Wholes.{Clausifying, ClausifyingAfter, Clausified, Queued};
ghost use Rattle.lists.specs.Listed.{Listed};
ghost use Rattle.ir.specs.Answer.{done};
ghost use Rattle.tables.specs.Lending.{SameReferences};

use inclusions::gci;
use ir::refusal::Refusal;
use tables::lent::Tables;

// Member i of the list is below every other member.
fn equivalent_to(
    lent: &mut Tables<'_>,
    scratch: &mut [u8],
    at: usize,
    count: u32,
    i: u32,
) -> Result<(), Refusal>
    requires { Clausifying scratch.old lent.old.counters × Listed (words scratch.old) lent.old.counters at count × (i < count) }
    ensures references { SameReferences lent.old lent.new }
    ensures clausified { let old = four_of (words scratch.old) lent.old in
        let new = four_of (words scratch.new) lent.new in
        let rule : Env → C (Unit {0}) = λ env. for_each (λ p. clausify_gci env p.0 p.1) (with_others (i, get_or old.scratch (at + i) 0) (numbered 0 (run old.scratch at count)) []) in
        Clausified rule lent.old.counters old new (done lent.new.counters result) × Queued rule lent.old.counters old new }
    ensures clausifying_after { ClausifyingAfter scratch.new (done lent.new.counters result) }
{
    let sub = words::get_word(scratch, at + i as usize);
    for j in 0..count {
        if i != j {
            let sup = words::get_word(scratch, at + j as usize);
            gci::clausify_gci(lent, scratch, sub, sup)?;
        }
    }
    Ok(())
}

// Of the `count` words from `at` on. It, disjoint and disjoint_roles differ in what they call and say, and so do disjoint_with and
// disjoint_roles_with: one function would take that as a closure over the lent tables, with a contract of its own.
pub fn equivalent(
    lent: &mut Tables<'_>,
    scratch: &mut [u8],
    at: usize,
    count: u32,
) -> Result<(), Refusal>
    requires { Clausifying scratch.old lent.old.counters × Listed (words scratch.old) lent.old.counters at count }
    ensures references { SameReferences lent.old lent.new }
    ensures clausified { let old = four_of (words scratch.old) lent.old in
        let new = four_of (words scratch.new) lent.new in
        let rule : Env → C (Unit {0}) = λ env. for_each (λ p. clausify_gci env p.0 p.1) (ordered_pairs (run old.scratch at count)) in
        Clausified rule lent.old.counters old new (done lent.new.counters result) × Queued rule lent.old.counters old new }
    ensures clausifying_after { ClausifyingAfter scratch.new (done lent.new.counters result) }
{
    for i in 0..count {
        equivalent_to(lent, scratch, at, count, i)?;
    }
    Ok(())
}

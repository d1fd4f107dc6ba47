// DisjointClasses: all pairs of a member and a later one.
// A run in scratch is its first word and its count, two numbers, as the definitions' `run` has it.
// Clauses that repeat stay clauses: `Clausifying` and `Listed` are about one moment of what is lent; a type with a number's bound would be
// made at each read and opened at each use.
ghost use Rattle.std.specs.Prelude.{[], ◌+◌, ◌-◌, ◌<◌, length, get_or};
ghost use Rattle.words.specs.Words.{words};
ghost use Rattle.rules.specs.Base.{for_each};
ghost use Rattle.rules.specs.Axioms.{paired, later_pairs, disjoint_pair};
ghost use Rattle.pool.specs.Layout.{run};
ghost use Rattle.hands.specs.Hands.{four_of};
ghost use Rattle.axioms.specs.Wholes.{Clausifying, ClausifyingAfter, Clausified};
ghost use Rattle.disjointness.specs.Pairs.{unencoded};
ghost use Rattle.lists.specs.Listed.{Listed};
ghost use Rattle.ir.specs.Answer.{done};
ghost use Rattle.tables.specs.Lending.{SameReferences};

use disjointness::pairs;
use ir::refusal::Refusal;
use tables::lent::Tables;

// Member i of the list with each later one: `deferred` is the rule's own Bool, here and below.
fn disjoint_with(
    lent: &mut Tables<'_>,
    scratch: &mut [u8],
    at: usize,
    count: u32,
    i: u32,
    deferred: bool,
) -> Result<(), Refusal>
    requires { Clausifying scratch.old lent.old.counters × Listed (words scratch.old) lent.old.counters at count × (i < count) }
    ensures references { SameReferences lent.old lent.new }
    ensures fact { let old = four_of (words scratch.old) lent.old in
        let new = four_of (words scratch.new) lent.new in
        Clausified (λ env. for_each (disjoint_pair env (unencoded env deferred)) (paired (get_or old.scratch (at + i) 0) (run old.scratch (at + i + 1) (count - (i + 1))) [])) lent.old.counters old new (done lent.new.counters result) }
    ensures clausifying_after { ClausifyingAfter scratch.new (done lent.new.counters result) }
{
    let a = words::get_word(scratch, at + i as usize);
    for j in i + 1..count {
        let b = words::get_word(scratch, at + j as usize);
        pairs::disjoint_pair(lent, scratch, a, b, deferred)?;
    }
    Ok(())
}

// Of the `count` words from `at` on; `deferred`: a pair that cannot be encoded is deferred.
pub fn disjoint(
    lent: &mut Tables<'_>,
    scratch: &mut [u8],
    at: usize,
    count: u32,
    deferred: bool,
) -> Result<(), Refusal>
    requires { Clausifying scratch.old lent.old.counters × Listed (words scratch.old) lent.old.counters at count }
    ensures references { SameReferences lent.old lent.new }
    ensures fact { let old = four_of (words scratch.old) lent.old in
        let new = four_of (words scratch.new) lent.new in
        Clausified (λ env. for_each (disjoint_pair env (unencoded env deferred)) (later_pairs (run old.scratch at count))) lent.old.counters old new (done lent.new.counters result) }
    ensures clausifying_after { ClausifyingAfter scratch.new (done lent.new.counters result) }
{
    for i in 0..count {
        disjoint_with(lent, scratch, at, count, i, deferred)?;
    }
    Ok(())
}

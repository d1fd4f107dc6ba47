// Option 4, after an axiom's own clauses: each filler that waits is below its name.
// The bound of a number that is read from a word stays a clause: a type with it would be made at each read, to be taken apart again.
// Clauses that repeat stay clauses: `Clausifying` is about one moment of what is lent.
ghost use Rattle.std.specs.Prelude.{◌<◌, length};
ghost use Rattle.words.specs.Words.{words};
ghost use Rattle.rules.specs.State.{Env};
ghost use Rattle.rules.specs.Axioms.{C, other_half};
ghost use Rattle.tables.specs.Good.{most_names};
ghost use Rattle.hands.specs.Hands.{four_of};
ghost use Rattle.axioms.specs.Wholes.{Clausifying, ClausifyingAfter, Clausified, Queued};
ghost use Rattle.clausifier.specs.Settles.{limit_of, Unsettled, Settled};
ghost use Rattle.ir.specs.Answer.{done};
ghost use Rattle.tables.specs.Lending.{SameReferences};

use inclusions::gci;
use ir::refusal::Refusal;
use pool::make;
use tables::lent::Tables;

// The name enters the pool, and the filler is below it.
fn settle_one(
    lent: &mut Tables<'_>,
    scratch: &mut [u8],
    filler: u32,
    name: u32,
) -> Result<(), Refusal>
    requires { Clausifying scratch.old lent.old.counters × (filler < lent.old.counters.concepts) × (name < most_names) }
    ensures references { SameReferences lent.old lent.new }
    ensures clausified { let old = four_of (words scratch.old) lent.old in
        let new = four_of (words scratch.new) lent.new in
        let rule : Env → C (Unit {0}) = λ env. other_half env (limit_of filler name) in
        Clausified rule lent.old.counters old new (done lent.new.counters result) × Queued rule lent.old.counters old new }
    ensures clausifying_after { ClausifyingAfter scratch.new (done lent.new.counters result) }
{
    let first = lent.counters.concepts;
    let a = make::mk_atomic(scratch, &mut lent.counters, name)?;
    antecedents::number_alternatives(scratch, lent.counters, first);
    gci::clausify_gci(lent, scratch, filler, a)
}

// All that wait, in order of naming, with those that are named on the way.
pub fn settle(lent: &mut Tables<'_>, scratch: &mut [u8]) -> Result<(), Refusal>
    requires { Clausifying scratch.old lent.old.counters × Unsettled lent.old.counters (four_of (words scratch.old) lent.old) }
    ensures references { SameReferences lent.old lent.new }
    ensures fact { let old = four_of (words scratch.old) lent.old in
        let new = four_of (words scratch.new) lent.new in
        Settled lent.old.counters old new (done lent.new.counters result) }
    ensures clausifying_after { ClausifyingAfter scratch.new (done lent.new.counters result) }
{
    // settling makes more wait: the count is read anew
    let mut i: u32 = 0;
    while i < waiting::count(scratch) {
        let filler = waiting::filler(scratch, i);
        let name = waiting::name(scratch, i);
        settle_one(lent, scratch, filler, name)?;
        i += 1;
    }
    Ok(())
}

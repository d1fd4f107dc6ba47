// clausify_gci: sub is below sup.
// The bound of a number that is read from a word stays a clause: a type with it would be made at each read, to be taken apart again.
// `sub` and `sup` stay two numbers: the Rust's own two names, and absorb changes the one and keeps the other.
// Clauses that repeat stay clauses: `Clausifying` is about one moment of what is lent.
ghost use Rattle.std.specs.Prelude.{◌≡◌, ◌<◌, length};
ghost use Rattle.words.specs.Words.{words};
ghost use Rattle.rules.specs.State.{Env};
ghost use Rattle.rules.specs.Axioms.{C, clausify_gci};
ghost use Rattle.pool.specs.Layout.{field};
ghost use Rattle.hands.specs.Hands.{four_of};
ghost use Rattle.axioms.specs.Wholes.{Clausifying, ClausifyingAfter, Clausified, Queued};
ghost use Rattle.ir.specs.Answer.{done};
ghost use Rattle.tables.specs.Lending.{SameReferences};

use crate::absorb;
use axioms::bodies;
use hands::HAND;
use heads::emit;
use ir::atom::Atom;
use ir::record;
use ir::refusal::Refusal;
use pool::layout::ATOMIC;
use pool::record as concept;
use tables::lent::Tables;

// Each of sub's alternatives is below sup.
fn clausify_alternatives(
    lent: &mut Tables<'_>,
    scratch: &mut [u8],
    sub: u32,
    sup: u32,
) -> Result<(), Refusal>
    requires { Clausifying scratch.old lent.old.counters × (sub < lent.old.counters.concepts) × (sup < lent.old.counters.concepts) }
    ensures references { SameReferences lent.old lent.new }
    ensures clausified { let old = four_of (words scratch.old) lent.old in
        let new = four_of (words scratch.new) lent.new in
        let rule : Env → C (Unit {0}) = λ env. clausify_gci env sub sup in
        Clausified rule lent.old.counters old new (done lent.new.counters result) × Queued rule lent.old.counters old new }
    ensures clausifying_after { ClausifyingAfter scratch.new (done lent.new.counters result) }
{
    lent.counters.restart_vars(); // y of the bodies is 1
    match antecedents::encode_antecedent(scratch, &mut lent.counters, sub)? {
        Some(a) => bodies::emit_bodies(lent, scratch, sub, a.count, 1, sup),
        None => absorb::absorb_hard_antecedent(lent, scratch, sub, sup),
    }
}

// A class below sup: its one body is that class.
fn clausify_class(
    lent: &mut Tables<'_>,
    scratch: &mut [u8],
    sub: u32,
    sup: u32,
) -> Result<(), Refusal>
    requires { Clausifying scratch.old lent.old.counters × (sub < lent.old.counters.concepts) × (sup < lent.old.counters.concepts) × (field (words scratch.old) sub 0 ≡ 3) }
    ensures references { SameReferences lent.old lent.new }
    ensures clausified { let old = four_of (words scratch.old) lent.old in
        let new = four_of (words scratch.new) lent.new in
        let rule : Env → C (Unit {0}) = λ env. clausify_gci env sub sup in
        Clausified rule lent.old.counters old new (done lent.new.counters result) × Queued rule lent.old.counters old new }
    ensures clausifying_after { ClausifyingAfter scratch.new (done lent.new.counters result) }
{
    lent.counters.restart_vars();
    lent.counters.visit()?;
    let class = concept::number(scratch, sub);
    record::put_atom(scratch, HAND, Atom::Class(class, 0));
    emit::emit_head(lent, scratch, HAND, 1, sup, 0)
}

pub fn clausify_gci(
    lent: &mut Tables<'_>,
    scratch: &mut [u8],
    sub: u32,
    sup: u32,
) -> Result<(), Refusal>
    requires { Clausifying scratch.old lent.old.counters × (sub < lent.old.counters.concepts) × (sup < lent.old.counters.concepts) }
    ensures references { SameReferences lent.old lent.new }
    ensures clausified { let old = four_of (words scratch.old) lent.old in
        let new = four_of (words scratch.new) lent.new in
        let rule : Env → C (Unit {0}) = λ env. clausify_gci env sub sup in
        Clausified rule lent.old.counters old new (done lent.new.counters result) × Queued rule lent.old.counters old new }
    ensures clausifying_after { ClausifyingAfter scratch.new (done lent.new.counters result) }
{
    if concept::kind(scratch, sub) == ATOMIC {
        return clausify_class(lent, scratch, sub, sup);
    }
    clausify_alternatives(lent, scratch, sub, sup)
}

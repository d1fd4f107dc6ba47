// absorb_hard_antecedent: the conjuncts that cannot be encoded go to the head, negated.
// The bound of a number that is read from a word stays a clause: a type with it would be made at each read, to be taken apart again.
// `sub` and `sup` stay two numbers: the Rust's own two names, and absorb changes the one and keeps the other.
// Clauses that repeat stay clauses: `Clausifying` is about one moment of what is lent.
ghost use Rattle.std.specs.Prelude.{List, ℕ, ◌<◌, length};
ghost use Rattle.words.specs.Words.{words};
ghost use Rattle.ir.specs.declared.atom.Atom.{Atom};
ghost use Rattle.rules.specs.State.{Env, E};
ghost use Rattle.rules.specs.Axioms.{C, absorb_hard_antecedent};
ghost use Rattle.pool.specs.Layout.{run, pool_of};
ghost use Rattle.hands.specs.Hands.{Did, Queues, four_of};
ghost use Rattle.axioms.specs.RoleAxioms.{hand_at};
ghost use Rattle.axioms.specs.Wholes.{Clausifying, ClausifyingAfter, Clausified, Queued};
ghost use Rattle.inclusions.specs.Parted.{soft_at, hard_at};
ghost use Rattle.inclusions.specs.Absorbs.{gives_head, absorb_none, absorb_some, Divided};
ghost use Rattle.ir.specs.Answer.{done};
ghost use Rattle.tables.specs.Lending.{SameReferences};

use crate::parts;
use axioms::bodies;
use hands::HAND;
use heads::emit;
use ir::deferral::Deferral;
use ir::refusal::Refusal;
use tables::lent::Tables;

// Nothing is soft: the head holds of everything.
fn absorb_none(lent: &mut Tables<'_>, scratch: &mut [u8], sub: u32, sup: u32) -> Result<(), Refusal>
    requires { Clausifying scratch.old lent.old.counters × (sub < lent.old.counters.concepts) × (sup < lent.old.counters.concepts) }
    ensures references { SameReferences lent.old lent.new }
    ensures clausified { let old = four_of (words scratch.old) lent.old in
        let new = four_of (words scratch.new) lent.new in
        let rule : Env → C (Unit {0}) = λ env. absorb_none env sub sup in
        Clausified rule lent.old.counters old new (done lent.new.counters result) × Queued rule lent.old.counters old new }
    ensures clausifying_after { ClausifyingAfter scratch.new (done lent.new.counters result) }
{
    let first = lent.counters.concepts;
    let head = parts::head_alone(scratch, &mut lent.counters, sub, sup)?;
    antecedents::number_alternatives(scratch, lent.counters, first);
    lent.counters.restart_vars();
    emit::emit_head(lent, scratch, HAND, 0, head, 0)
}

// Concept g gives the head.
fn emit_soft(lent: &mut Tables<'_>, scratch: &mut [u8], g: u32, head: u32) -> Result<(), Refusal>
    requires { Clausifying scratch.old lent.old.counters × (g < lent.old.counters.concepts) × (head < lent.old.counters.concepts) }
    ensures references { SameReferences lent.old lent.new }
    ensures did { let old = four_of (words scratch.old) lent.old in
        let new = four_of (words scratch.new) lent.new in
        let rule : Env → ℕ → List Atom → E (Unit {0}) = λ env f b s. gives_head env g head (pool_of old.scratch lent.old.counters.concepts) s in
        Did (λ _. 0) 0 rule lent.old.counters hand_at 0 old new (done lent.new.counters result) × Queues 0 rule lent.old.counters hand_at 0 old new }
{
    lent.counters.restart_vars();
    match antecedents::encode_antecedent(scratch, &mut lent.counters, g)? {
        Some(a) => bodies::emit_bodies(lent, scratch, g, a.count, 1, head),
        None => tables::defer(lent.deferrals, &mut lent.counters, Deferral::Antecedent),
    }
}

// The soft conjuncts together give the head.
fn absorb_some(
    lent: &mut Tables<'_>,
    scratch: &mut [u8],
    soft: u32,
    hard: u32,
    sub: u32,
    sup: u32,
) -> Result<(), Refusal>
    requires { Clausifying scratch.old lent.old.counters × (sub < lent.old.counters.concepts) × (sup < lent.old.counters.concepts) × Divided scratch.old lent.old.counters sub soft hard }
    ensures references { SameReferences lent.old lent.new }
    ensures clausified { let old = four_of (words scratch.old) lent.old in
        let new = four_of (words scratch.new) lent.new in
        let rule : Env → C (Unit {0}) = λ env. absorb_some env sup (run old.scratch soft_at soft) (run old.scratch hard_at hard) in
        Clausified rule lent.old.counters old new (done lent.new.counters result) × Queued rule lent.old.counters old new }
    ensures clausifying_after { ClausifyingAfter scratch.new (done lent.new.counters result) }
{
    let first = lent.counters.concepts;
    let head = parts::head_over(scratch, &mut lent.counters, hard, sub, sup)?;
    let g = parts::soft_and(scratch, &mut lent.counters, soft)?;
    antecedents::number_alternatives(scratch, lent.counters, first);
    emit_soft(lent, scratch, g, head)
}

pub fn absorb_hard_antecedent(
    lent: &mut Tables<'_>,
    scratch: &mut [u8],
    sub: u32,
    sup: u32,
) -> Result<(), Refusal>
    requires { Clausifying scratch.old lent.old.counters × (sub < lent.old.counters.concepts) × (sup < lent.old.counters.concepts) }
    ensures references { SameReferences lent.old lent.new }
    ensures clausified { let old = four_of (words scratch.old) lent.old in
        let new = four_of (words scratch.new) lent.new in
        let rule : Env → C (Unit {0}) = λ env. absorb_hard_antecedent env sub sup in
        Clausified rule lent.old.counters old new (done lent.new.counters result) × Queued rule lent.old.counters old new }
    ensures clausifying_after { ClausifyingAfter scratch.new (done lent.new.counters result) }
{
    let parts = parts::partition(scratch, &mut lent.counters, sub)?;
    if parts.soft == 0 {
        return absorb_none(lent, scratch, sub, sup);
    }
    absorb_some(lent, scratch, parts.soft, parts.hard, sub, sup)
}

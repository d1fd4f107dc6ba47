// An axiom, and then the limits that it named (option 4).
// Clauses that repeat stay clauses: `AxiomOf` and `Clausifying` are about one moment of what is lent.
ghost use Rattle.std.specs.Prelude.{◌≡◌, true, ◌&&◌, length};
ghost use Rattle.words.specs.Words.{words};
ghost use Rattle.ir.specs.Options.{equal_names};
ghost use Rattle.rules.specs.Handed.{names_limits};
ghost use Rattle.hands.specs.Hands.{four_of};
ghost use Rattle.ontology.specs.Layout.{axiom_at};
ghost use Rattle.axioms.specs.Wholes.{Clausifying, ClausifyingAfter};
ghost use Rattle.clausifier.specs.Arms.{AxiomOf};
ghost use Rattle.clausifier.specs.Limited.{ReadyFor, Limited};
ghost use Rattle.ir.specs.Answer.{done};
ghost use Rattle.tables.specs.Lending.{SameReferences};

use crate::{axiom, settle};
use ir::counters::Counters;
use ir::options;
use ir::refusal::Refusal;
use ontology::axiom as numbers;
use tables::lent::Tables;

// Whether axiom i may name limits: option 4 is on, and it makes heads.
fn names_limits(scratch: &[u8], k: Counters, i: u32) -> bool
    requires { Clausifying scratch.now k × AxiomOf (words scratch.now) k i }
    ensures { result ≡ (names_limits (axiom_at (words scratch.now) i) && equal_names k.options) }
{
    if !options::equal_names(k.options) {
        return false;
    }
    // By number, as ontology's row_axiom goes: an enum would be made by a match over the same numbers.
    match numbers::number(scratch, i, 0) {
        21 | 22 | 25 | 26 => true,
        _ => false,
    }
}

// Axiom i, which may.
fn clausify_limited(lent: &mut Tables<'_>, scratch: &mut [u8], i: u32) -> Result<(), Refusal>
    requires { Clausifying scratch.old lent.old.counters × AxiomOf (words scratch.old) lent.old.counters i × ReadyFor (axiom_at (words scratch.old) i) lent.old.counters (four_of (words scratch.old) lent.old) × (names_limits (axiom_at (words scratch.old) i) ≡ true) }
    ensures references { SameReferences lent.old lent.new }
    ensures fact { let old = four_of (words scratch.old) lent.old in
        let new = four_of (words scratch.new) lent.new in
        Limited (axiom_at old.scratch i) lent.old.counters old new (done lent.new.counters result) }
    ensures clausifying_after { ClausifyingAfter scratch.new (done lent.new.counters result) }
{
    waiting::reset(scratch);
    axiom::clausify_axiom(lent, scratch, i)?;
    settle::settle(lent, scratch)
}

// Axiom i.
pub fn clausify_whole(lent: &mut Tables<'_>, scratch: &mut [u8], i: u32) -> Result<(), Refusal>
    requires { Clausifying scratch.old lent.old.counters × AxiomOf (words scratch.old) lent.old.counters i × ReadyFor (axiom_at (words scratch.old) i) lent.old.counters (four_of (words scratch.old) lent.old) }
    ensures references { SameReferences lent.old lent.new }
    ensures fact { let old = four_of (words scratch.old) lent.old in
        let new = four_of (words scratch.new) lent.new in
        Limited (axiom_at old.scratch i) lent.old.counters old new (done lent.new.counters result) }
    ensures clausifying_after { ClausifyingAfter scratch.new (done lent.new.counters result) }
{
    if names_limits(scratch, lent.counters, i) {
        return clausify_limited(lent, scratch, i);
    }
    axiom::clausify_axiom(lent, scratch, i)
}

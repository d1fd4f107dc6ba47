// nnf_axioms: the concepts of each axiom become their normal forms.
// Clauses that repeat stay clauses: `NormalizingAxioms` is about one moment of what is lent; a type with a number's bound would be made at
// each read and opened at each use.
ghost use Rattle.std.specs.Prelude.{◌≡◌, ◌+◌, ◌-◌, ◌≤◌, ◌<◌, true};
ghost use Rattle.words.specs.Words.{words};
ghost use Rattle.ir.specs.Scratch.{numbers_at, lines_at, stack_at};
ghost use Rattle.rules.specs.Normalize.{nnf_axiom};
ghost use Rattle.rules.specs.Run.{nnf_axioms};
ghost use Rattle.ontology.specs.Layout.{axiom_at, axioms_of};
ghost use Rattle.rebuilding.specs.States.{state_of, told, HeldRun, Kept};
ghost use Rattle.normalize.specs.Known.{Known, KnownAfter};
ghost use Rattle.normalize.specs.Axioms.{first_concept, concept_count, concepts_at, concepts_in, after_axiom, after_axioms, told_lined, HeldLined, NormalizingAxioms};
ghost use Rattle.ir.specs.Answer.{done};
ghost use Rattle.ir.specs.Lined.{lined};

use crate::nnf;
use ir::answer::Refused;
use ir::counters::Counters;
use ir::refusal::Refusal;
use ir::scratch::{NORMAL_FORMS, NUMBERS, STACK};
use ontology::axiom;

// Kinds of axioms are the deck's numbers, as the definitions of these names and the rules' `axiom_of` have them: an enum would be made
// by a match over the same numbers.

// Where the concepts of an axiom begin among its numbers.
fn first_concept(kind: u32) -> u32
    ensures { result ≡ first_concept kind }
{
    match kind {
        // DisjointUnion, ObjectPropertyDomain, ObjectPropertyRange: a class or a role is first
        24..=26 => 2,
        _ => 1,
    }
}

// How many concepts an axiom of n numbers names.
fn concept_count(kind: u32, n: u32) -> u32
    requires { (1 ≤ n) × (first_concept kind ≤ n) }
    ensures { result ≡ concept_count kind n }
{
    match kind {
        // ClassAssertion
        36 => 1,
        // up to ObjectPropertyRange
        0..=26 => n - first_concept(kind),
        _ => 0,
    }
}

// Axiom i.
fn nnf_axiom(scratch: &mut [u8], k: &mut Counters, n: u32, i: u32) -> Result<(), Refusal>
    requires { NormalizingAxioms scratch.old k.old n × (i < n) × Known (words scratch.old) k.old.concepts }
    ensures scratch_after { after_axiom (done k.new result) (axiom_at (words scratch.new) i) (words scratch.new) ≡ told k.old (nnf_axiom (axiom_at (words scratch.old) i) (state_of k.old (words scratch.old))) }
    ensures held_run { HeldRun (done k.new result) (words scratch.new) }
    ensures kept { Kept (concepts_at (words scratch.old) i) (concepts_in (words scratch.old) i) stack_at (words scratch.old) (words scratch.new) }
    ensures known_after { KnownAfter true (done k.new result) (words scratch.new) }
{
    let kind = axiom::number(scratch, i, 0);
    let first = first_concept(kind);
    let count = concept_count(kind, axiom::count(scratch, i));
    let at = NUMBERS + axiom::start(scratch, i) as usize + first as usize;
    let concepts = k.concepts;
    nnf::normal_each(scratch, k, at, count, STACK, concepts, false, true)
}

// All of them, the first on line `line`.
fn nnf_each(scratch: &mut [u8], k: &mut Counters, n: u32, line: u32) -> Result<(), Refused>
    requires { NormalizingAxioms scratch.old k.old n × (line ≤ 65536) × Known (words scratch.old) k.old.concepts }
    ensures scratch_after { after_axioms (lined k.new result) (axioms_of (words scratch.new) n) (words scratch.new) ≡ told_lined k.old (nnf_axioms line (axioms_of (words scratch.old) n) (state_of k.old (words scratch.old))) }
    ensures held_lined { HeldLined (lined k.new result) n (words scratch.new) }
    ensures kept { Kept numbers_at (lines_at - numbers_at) stack_at (words scratch.old) (words scratch.new) }
{
    for i in 0..n {
        let here = line + i;
        nnf_axiom(scratch, k, n, i).map_err(|refusal| Refused {
            refusal,
            line: here,
        })?;
    }
    Ok(())
}

// The same, with no normal form known before.
pub fn nnf_axioms(scratch: &mut [u8], k: &mut Counters, n: u32, line: u32) -> Result<(), Refused>
    requires { NormalizingAxioms scratch.old k.old n × (line ≤ 65536) }
    ensures scratch_after { after_axioms (lined k.new result) (axioms_of (words scratch.new) n) (words scratch.new) ≡ told_lined k.old (nnf_axioms line (axioms_of (words scratch.old) n) (state_of k.old (words scratch.old))) }
    ensures held_lined { HeldLined (lined k.new result) n (words scratch.new) }
    ensures kept { Kept numbers_at (lines_at - numbers_at) stack_at (words scratch.old) (words scratch.new) }
{
    words::clear_words(scratch, NORMAL_FORMS, 4096);
    nnf_each(scratch, k, n, line)
}

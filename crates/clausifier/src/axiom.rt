// clausify_axiom: the arms, over the numbers of an axiom.
// A run in scratch is its first word and its count, two numbers, as the definitions' `run` has it.
// Clauses that repeat stay clauses: `AxiomOf` and `Clausifying` are about one moment of what is lent.
ghost use Rattle.std.specs.Prelude.{◌<◌, ◌≤◌, length};
ghost use Rattle.words.specs.Words.{words};
ghost use Rattle.rules.specs.Axioms.{clausify_axiom};
ghost use Rattle.hands.specs.Hands.{four_of};
ghost use Rattle.ontology.specs.Layout.{axiom_at};
ghost use Rattle.ontology.specs.Rows.{row_axiom};
ghost use Rattle.axioms.specs.Wholes.{Clausifying, ClausifyingAfter, Clausified};
ghost use Rattle.clausifier.specs.Arms.{AxiomOf, Axiomed};
ghost use Rattle.clausifier.specs.Rows.{Row};
ghost use Rattle.ir.specs.Answer.{done};
ghost use Rattle.tables.specs.Lending.{SameReferences};

use axioms::{domain, roles};
use inclusions::gci;
use ir::deferral::Deferral;
use ir::refusal::Refusal;
use ir::scratch::NUMBERS;
use lists::{disjoints, equivalents, roles as role_lists, unions};
use ontology::axiom;
use tables::lent::Tables;

// An axiom where it stands: its kind, and the `count` words from `at` on.
#[derive(Clone, Copy)]
struct Line {
    kind: u32,
    at: usize,
    count: u32,
}

// The arms over classes, 21 to 26: by number, as ontology's row_axiom goes; an enum would be made by a match over the same numbers.
fn clausify_classes(lent: &mut Tables<'_>, scratch: &mut [u8], line: Line) -> Result<(), Refusal>
    requires { Clausifying scratch.old lent.old.counters × Row (words scratch.old) lent.old.counters line.kind line.at line.count × (line.kind < 27) }
    ensures references { SameReferences lent.old lent.new }
    ensures fact { let old = four_of (words scratch.old) lent.old in
        let new = four_of (words scratch.new) lent.new in
        Axiomed (row_axiom old.scratch line.kind line.at line.count) lent.old.counters old new (done lent.new.counters result) }
    ensures clausifying_after { ClausifyingAfter scratch.new (done lent.new.counters result) }
{
    let a = words::get_word(scratch, line.at + 1);
    match line.kind {
        21 => {
            let b = words::get_word(scratch, line.at + 2);
            gci::clausify_gci(lent, scratch, a, b)
        }
        22 => equivalents::equivalent(lent, scratch, line.at + 1, line.count - 1),
        23 => disjoints::disjoint(lent, scratch, line.at + 1, line.count - 1, true),
        24 => unions::union(lent, scratch, a, line.at + 2, line.count - 2),
        _ => {
            let c = words::get_word(scratch, line.at + 2);
            domain::domain_or_range(lent, scratch, a, c, line.kind == 26)
        }
    }
}

// A chain of two roles.
fn clausify_chain(lent: &mut Tables<'_>, scratch: &mut [u8], line: Line) -> Result<(), Refusal>
    requires { Clausifying scratch.old lent.old.counters × Row (words scratch.old) lent.old.counters 27 line.at line.count }
    ensures references { SameReferences lent.old lent.new }
    ensures fact { let old = four_of (words scratch.old) lent.old in
        let new = four_of (words scratch.new) lent.new in
        Clausified (λ env. clausify_axiom env (row_axiom old.scratch 27 line.at line.count)) lent.old.counters old new (done lent.new.counters result) }
    ensures clausifying_after { ClausifyingAfter scratch.new (done lent.new.counters result) }
{
    if line.count != 4 {
        return tables::defer(
            lent.deferrals,
            &mut lent.counters,
            Deferral::RoleChainLenNe2,
        );
    }
    let r = words::get_word(scratch, line.at + 1);
    let a = words::get_word(scratch, line.at + 2);
    let b = words::get_word(scratch, line.at + 3);
    let k = &mut lent.counters;
    roles::chain(lent.clauses, lent.atoms, k, scratch, a, b, r)
}

// The arms over roles, 27 to 31, by number too; the others make no clause.
fn clausify_roles(lent: &mut Tables<'_>, scratch: &mut [u8], line: Line) -> Result<(), Refusal>
    requires { Clausifying scratch.old lent.old.counters × Row (words scratch.old) lent.old.counters line.kind line.at line.count × (27 ≤ line.kind) }
    ensures references { SameReferences lent.old lent.new }
    ensures fact { let old = four_of (words scratch.old) lent.old in
        let new = four_of (words scratch.new) lent.new in
        Clausified (λ env. clausify_axiom env (row_axiom old.scratch line.kind line.at line.count)) lent.old.counters old new (done lent.new.counters result) }
    ensures clausifying_after { ClausifyingAfter scratch.new (done lent.new.counters result) }
{
    let r = words::get_word(scratch, line.at + 1);
    let k = &mut lent.counters;
    match line.kind {
        27 => clausify_chain(lent, scratch, line),
        28 => roles::chain(lent.clauses, lent.atoms, k, scratch, r, r, r),
        29 => roles::irreflexive(lent.clauses, lent.atoms, k, scratch, r),
        30 => roles::not_both(lent.clauses, lent.atoms, k, scratch, r, r, true),
        31 => role_lists::disjoint_roles(
            lent.clauses,
            lent.atoms,
            k,
            scratch,
            line.at + 1,
            line.count - 1,
        ),
        _ => Ok(()),
    }
}

// Axiom i.
pub fn clausify_axiom(lent: &mut Tables<'_>, scratch: &mut [u8], i: u32) -> Result<(), Refusal>
    requires { Clausifying scratch.old lent.old.counters × AxiomOf (words scratch.old) lent.old.counters i }
    ensures references { SameReferences lent.old lent.new }
    ensures fact { let old = four_of (words scratch.old) lent.old in
        let new = four_of (words scratch.new) lent.new in
        Axiomed (axiom_at old.scratch i) lent.old.counters old new (done lent.new.counters result) }
    ensures clausifying_after { ClausifyingAfter scratch.new (done lent.new.counters result) }
{
    let kind = axiom::number(scratch, i, 0);
    let at = NUMBERS + axiom::start(scratch, i) as usize;
    let count = axiom::count(scratch, i);
    let line = Line { kind, at, count };
    if kind < 27 {
        return clausify_classes(lent, scratch, line);
    }
    clausify_roles(lent, scratch, line)
}

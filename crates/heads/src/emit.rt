// emit_head, head_atom_for and atomic_name_of, which call each other: the pair of a concept's id and a rank falls.
// Atoms in hand are told by their first record and their number, two numbers, as `Did` has them.
// A concept and a variable stay two numbers, as the rules have them.
// Clauses that repeat stay clauses: `Emitting` and `Restricts` are about one moment of what is lent.
ghost use Rattle.std.specs.Prelude.{◌≡◌, List, ℕ, suc, ◌+◌, ◌≤◌, length};
ghost use Rattle.std.proofs.Math.Option.{Option, none};
ghost use Rattle.words.specs.Words.{words};
ghost use Rattle.ir.specs.declared.atom.Atom.{Atom};
ghost use Rattle.rules.specs.Base.{Res};
ghost use Rattle.rules.specs.State.{Env, Out};
ghost use Rattle.rules.specs.Heads.{emit_by, emit_step, atomic_name_of, name_or, head_atom_for};
ghost use Rattle.pool.specs.Layout.{field, concept_at, pool_of};
ghost use Rattle.hands.specs.Hands.{Did, Queues, four_of};
ghost use Rattle.leaves.specs.Classes.{Restricts};
ghost use Rattle.leaves.specs.Leaves.{name_filler};
ghost use Rattle.leaves.specs.Made.{Small, DidAtom};
ghost use Rattle.heads.specs.Emits.{Emitting};
ghost use Rattle.ir.specs.Answer.{answer, done};
ghost use Rattle.ir.specs.Headed.{headed};
ghost use Rattle.tables.specs.Lending.{SameReferences};

use crate::limit;
use ir::atom::Atom;
use ir::deferral::Deferral;
use ir::record;
use ir::refusal::Refusal;
use leaves::disjunct::Disjunct;
use leaves::form::Form;
use leaves::{after, disjunct, form, leaf, read};
use pool::record as concept;
use tables::lent::Tables;

#[cycle(atomic_name_of_emit_all_emit_head_emit_or_emit_under_head_atom_for_name_filler_name_new)]
pub fn emit_head(
    lent: &mut Tables<'_>,
    scratch: &mut [u8],
    base: usize,
    n: u32,
    c: u32,
    v: u32,
) -> Result<(), Refusal>
    requires { Emitting scratch.old lent.old.counters base n c }
    ensures references { SameReferences lent.old lent.new }
    ensures did { let old = four_of (words scratch.old) lent.old in
        let new = four_of (words scratch.new) lent.new in
        let rule : Env → ℕ → List Atom → Out → Res Out (Unit {0}) = λ env f b s. emit_by env (pool_of old.scratch lent.old.counters.concepts) f b c v s in
        Did (λ _. 0) (suc c) rule lent.old.counters base n old new (done lent.new.counters result) × Queues (suc c) rule lent.old.counters base n old new }
{
    lent.counters.visit()?;
    match form::form_of(scratch, lent.counters, c) {
        Form::Leaf => {
            let x = leaf::leaf_of(scratch, lent.counters, c, v);
            leaf::emit_leaf(lent, scratch, base, n, x)
        }
        Form::And => emit_all(lent, scratch, base, n, c, v),
        Form::Or => emit_or(lent, scratch, base, n, c, v),
        Form::All => emit_under(lent, scratch, base, n, c, v),
        Form::Named => {
            let q = name_filler(lent, scratch, base + n as usize, c)?;
            let k = &mut lent.counters;
            after::emit_named(lent.clauses, lent.atoms, k, scratch, base, n, c, v, q)
        }
    }
}

// All: one variable and one body atom more.
#[cycle(atomic_name_of_emit_all_emit_head_emit_or_emit_under_head_atom_for_name_filler_name_new)]
fn emit_under(
    lent: &mut Tables<'_>,
    scratch: &mut [u8],
    base: usize,
    n: u32,
    c: u32,
    v: u32,
) -> Result<(), Refusal>
    requires { Emitting scratch.old lent.old.counters base n c × (field (words scratch.old) c 0 ≡ 10) × (lent.old.counters.next_var ≤ lent.old.counters.visits + 3) }
    ensures references { SameReferences lent.old lent.new }
    ensures did { let old = four_of (words scratch.old) lent.old in
        let new = four_of (words scratch.new) lent.new in
        let pool = pool_of old.scratch lent.old.counters.concepts in
        let rule : Env → ℕ → List Atom → Out → Res Out (Unit {0}) = λ env f b s. emit_step env pool (λ h d u. emit_by env pool f h d u) b v (concept_at old.scratch c) s in
        Did (λ _. 0) c rule lent.old.counters base n old new (done lent.new.counters result) × Queues c rule lent.old.counters base n old new }
{
    if 256 <= n {
        return Err(Refusal::NoRoom);
    }
    let role = read::canon(scratch, lent.counters, c);
    let d = concept::child(scratch, c);
    let y = lent.counters.fresh_var();
    record::put_atom(scratch, base + n as usize, Atom::Role(role, v, y));
    emit_head(lent, scratch, base, n + 1, d, y)
}

// And: each member, over the same body.
#[cycle(atomic_name_of_emit_all_emit_head_emit_or_emit_under_head_atom_for_name_filler_name_new)]
fn emit_all(
    lent: &mut Tables<'_>,
    scratch: &mut [u8],
    base: usize,
    n: u32,
    c: u32,
    v: u32,
) -> Result<(), Refusal>
    requires { Emitting scratch.old lent.old.counters base n c × (field (words scratch.old) c 0 ≡ 7) }
    ensures references { SameReferences lent.old lent.new }
    ensures did { let old = four_of (words scratch.old) lent.old in
        let new = four_of (words scratch.new) lent.new in
        let pool = pool_of old.scratch lent.old.counters.concepts in
        let rule : Env → ℕ → List Atom → Out → Res Out (Unit {0}) = λ env f b s. emit_step env pool (λ h d u. emit_by env pool f h d u) b v (concept_at old.scratch c) s in
        Did (λ _. 0) c rule lent.old.counters base n old new (done lent.new.counters result) × Queues c rule lent.old.counters base n old new }
{
    let start = concept::child(scratch, c);
    let count = concept::number(scratch, c);
    for i in 0..count {
        let p = concept::member(scratch, start + i);
        emit_head(lent, scratch, base, n, p, v)?;
    }
    Ok(())
}

// Or: an atom for each member, in hand above the body.
#[cycle(atomic_name_of_emit_all_emit_head_emit_or_emit_under_head_atom_for_name_filler_name_new)]
fn emit_or(
    lent: &mut Tables<'_>,
    scratch: &mut [u8],
    base: usize,
    n: u32,
    c: u32,
    v: u32,
) -> Result<(), Refusal>
    requires { Emitting scratch.old lent.old.counters base n c × (field (words scratch.old) c 0 ≡ 8) }
    ensures references { SameReferences lent.old lent.new }
    ensures did { let old = four_of (words scratch.old) lent.old in
        let new = four_of (words scratch.new) lent.new in
        let pool = pool_of old.scratch lent.old.counters.concepts in
        let rule : Env → ℕ → List Atom → Out → Res Out (Unit {0}) = λ env f b s. emit_step env pool (λ h d u. emit_by env pool f h d u) b v (concept_at old.scratch c) s in
        Did (λ _. 0) c rule lent.old.counters base n old new (done lent.new.counters result) × Queues c rule lent.old.counters base n old new }
{
    let start = concept::child(scratch, c);
    let count = concept::number(scratch, c);
    for i in 0..count {
        let p = concept::member(scratch, start + i);
        let top = base + n as usize + i as usize;
        let Some(a) = head_atom_for(lent, scratch, top, p, v)? else {
            return tables::defer(lent.deferrals, &mut lent.counters, Deferral::HeadOrDisjunct);
        };
        if 256 <= i {
            return Err(Refusal::NoRoom);
        }
        record::put_atom(scratch, top, a);
    }
    let k = &mut lent.counters;
    hands::push_run(lent.clauses, lent.atoms, k, scratch, base, n, count)
}

// One atom for a disjunct; what it names stands from `base` on.
#[cycle(atomic_name_of_emit_all_emit_head_emit_or_emit_under_head_atom_for_name_filler_name_new)]
pub fn head_atom_for(
    lent: &mut Tables<'_>,
    scratch: &mut [u8],
    base: usize,
    c: u32,
    v: u32,
) -> Result<Option<Atom>, Refusal>
    requires { Emitting scratch.old lent.old.counters base 1 c }
    ensures references { SameReferences lent.old lent.new }
    ensures did { let old = four_of (words scratch.old) lent.old in
        let new = four_of (words scratch.new) lent.new in
        let pool = pool_of old.scratch lent.old.counters.concepts in
        let rule : Env → ℕ → Out → Res Out (Option Atom) = λ env f s. head_atom_for env pool (λ h d u. emit_by env pool f h d u) c v s in
        DidAtom (suc c) rule lent.old.counters base old new (headed lent.new.counters result) × Queues (suc c) (λ env f b s. rule env f s) lent.old.counters base 0 old new }
{
    lent.counters.visit()?;
    match disjunct::disjunct_of(scratch, lent.counters, c, v) {
        Disjunct::Ready(a) => Ok(Some(a)),
        Disjunct::Negated(a) => {
            let k = &mut lent.counters;
            disjunct::name_negated(lent.clauses, lent.atoms, k, scratch, base, a, v)
        }
        Disjunct::Absent => Ok(None),
        Disjunct::Whole => {
            let q = atomic_name_of(lent, scratch, base, c)?;
            Ok(Some(Atom::Class(q, v)))
        }
        Disjunct::Filler => {
            let q = name_filler(lent, scratch, base, c)?;
            let a = disjunct::filler_atom(scratch, lent.counters, c, v, q);
            Ok(Some(a))
        }
    }
}

// The class that names the filler of restriction c; a limit's filler that is named anew waits.
#[cycle(atomic_name_of_emit_all_emit_head_emit_or_emit_under_head_atom_for_name_filler_name_new)]
fn name_filler(
    lent: &mut Tables<'_>,
    scratch: &mut [u8],
    base: usize,
    c: u32,
) -> Result<u32, Refusal>
    requires { Emitting scratch.old lent.old.counters base 0 c × Restricts (concept_at (words scratch.old) c) }
    ensures references { SameReferences lent.old lent.new }
    ensures did { let old = four_of (words scratch.old) lent.old in
        let new = four_of (words scratch.new) lent.new in
        let pool = pool_of old.scratch lent.old.counters.concepts in
        let rule : Env → ℕ → List Atom → Out → Res Out ℕ = λ env f b s. name_filler env pool (atomic_name_of env pool (λ h d u. emit_by env pool f h d u)) (concept_at old.scratch c) s in
        Did (λ q. q) c rule lent.old.counters base 0 old new (answer lent.new.counters result) × Small (answer lent.new.counters result) × Queues c rule lent.old.counters base 0 old new }
{
    let d = concept::child(scratch, c);
    limit::wait(scratch, lent.counters, c, d);
    atomic_name_of(lent, scratch, base, d)
}

// The class that names c: its own, or a fresh one below it.
#[cycle(atomic_name_of_emit_all_emit_head_emit_or_emit_under_head_atom_for_name_filler_name_new)]
pub fn atomic_name_of(
    lent: &mut Tables<'_>,
    scratch: &mut [u8],
    base: usize,
    c: u32,
) -> Result<u32, Refusal>
    requires { Emitting scratch.old lent.old.counters base 1 c }
    ensures references { SameReferences lent.old lent.new }
    ensures did { let old = four_of (words scratch.old) lent.old in
        let new = four_of (words scratch.new) lent.new in
        let pool = pool_of old.scratch lent.old.counters.concepts in
        let rule : Env → ℕ → List Atom → Out → Res Out ℕ = λ env f b s. atomic_name_of env pool (λ h d u. emit_by env pool f h d u) c s in
        Did (λ q. q) (suc c) rule lent.old.counters base 0 old new (answer lent.new.counters result) × Small (answer lent.new.counters result) × Queues (suc c) rule lent.old.counters base 0 old new }
{
    lent.counters.visit()?;
    match read::class_id_of(scratch, lent.counters, c) {
        Some(a) => Ok(a),
        None => name_new(lent, scratch, base, c),
    }
}

// A fresh class below c: its body stands from `base` on.
#[cycle(atomic_name_of_emit_all_emit_head_emit_or_emit_under_head_atom_for_name_filler_name_new)]
fn name_new(lent: &mut Tables<'_>, scratch: &mut [u8], base: usize, c: u32) -> Result<u32, Refusal>
    requires { Emitting scratch.old lent.old.counters base 1 c × (lent.old.counters.next_class ≤ lent.old.counters.visits + 8191) }
    ensures references { SameReferences lent.old lent.new }
    ensures did { let old = four_of (words scratch.old) lent.old in
        let new = four_of (words scratch.new) lent.new in
        let pool = pool_of old.scratch lent.old.counters.concepts in
        let rule : Env → ℕ → List Atom → Out → Res Out ℕ = λ env f b s. name_or env pool (λ h d u. emit_by env pool f h d u) c none s in
        Did (λ q. q) (suc c) rule lent.old.counters base 0 old new (answer lent.new.counters result) × Small (answer lent.new.counters result) × Queues (suc c) rule lent.old.counters base 0 old new }
{
    let q = lent.counters.fresh_class();
    record::put_atom(scratch, base, Atom::Class(q, 0));
    emit_head(lent, scratch, base, 1, c, 0)?;
    Ok(q)
}

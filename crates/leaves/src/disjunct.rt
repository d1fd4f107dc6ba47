// head_atom_for before anything is named.
// What never defers has two of the tables and the counters: with all of them it would say again what it leaves alone.
// The bound of a number that is read from a word stays a clause: a type with it would be made at each read, to be taken apart again.
// `Fits` of an atom stays a clause: an enum holds no ghost field.
// A concept and a variable stay two numbers, as the rules have them.
// Clauses that repeat stay clauses: `Good`, `Reading` and `Restricts` are about one moment of what is lent.
ghost use Rattle.std.specs.Prelude.{◌≡◌, [], List, ℕ, ◌+◌, ◌*◌, ◌<◌, ◌≤◌, ◌^◌, length, IfSome};
ghost use Rattle.words.specs.Words.{words};
ghost use Rattle.ir.specs.Scratch.{hands_at, limits_at};
ghost use Rattle.ir.specs.Records.{Fits};
ghost use Rattle.rules.specs.Concept.{Concept};
ghost use Rattle.rules.specs.Pool.{Pool};
ghost use Rattle.rules.specs.State.{Env, class_id_of, is_dkey};
ghost use Rattle.pool.specs.Layout.{field, concept_at, pool_of};
ghost use Rattle.tables.specs.Drawn.{Sized};
ghost use Rattle.tables.specs.Good.{Good};
ghost use Rattle.waiting.specs.Limits.{Behind};
ghost use Rattle.hands.specs.Hands.{EnvIn, four};
ghost use Rattle.leaves.specs.Leaves.{negated_or, no_atom, over_top, disjunct_of, filler_atom, name_negated};
ghost use Rattle.leaves.specs.Classes.{option_in, Restricts};
ghost use Rattle.leaves.specs.Reading.{Reading, DisjunctFits};
ghost use Rattle.leaves.specs.Made.{DidAtom};
ghost use Rattle.ir.specs.Headed.{headed};

use crate::{leaf, read};
use ir::atom::Atom;
use ir::counters::Counters;
use ir::refusal::Refusal;
use ir::{options, record};
use pool::layout::{ATOMIC, MAX, MIN, NOMINAL, NOT, SOME};
use pool::record as concept;

// Of a disjunct: its atom, the atom that a fresh name excludes, none, the disjunct to be named, or its filler.
#[derive(Clone, Copy)]
pub enum Disjunct {
    Ready(Atom),
    Negated(Atom),
    Absent,
    Whole,
    Filler,
}

// Of a negation.
fn excluded(x: Option<Atom>) -> Disjunct
    requires { IfSome x Fits }
    ensures value { (env : Env) (p : Pool) → result ≡ negated_or env p (option_in x) }
    ensures disjunct_fits { (e : Concept) → DisjunctFits e result }
{
    match x {
        Some(a) => Disjunct::Negated(a),
        None => Disjunct::Absent,
    }
}

// Whether concept d is a data key.
fn over_dkey(scratch: &[u8], k: Counters, d: u32) -> bool
    requires { Reading scratch.now k × (d < k.concepts) }
    ensures { (env : Env) → EnvIn env k (words scratch.now) → result ≡ is_dkey env (class_id_of env (concept_at (words scratch.now) d)) }
{
    match read::class_id_of(scratch, k, d) {
        Some(a) => read::is_dkey(scratch, k, a),
        None => false,
    }
}

// Whether Min or Max is no atom of its own: without option 2, at least 0, or over a data key.
fn no_atom(scratch: &[u8], k: Counters, c: u32) -> bool
    requires { Reading scratch.now k × (c < k.concepts) × (11 ≤ field (words scratch.now) c 0) }
    ensures { (env : Env) → EnvIn env k (words scratch.now) → result ≡ no_atom env (pool_of (words scratch.now) k.concepts) (concept_at (words scratch.now) c) }
{
    // A test of its own: the branches of three operands come to the proof as one case.
    if !options::card_disjunct_atoms(k.options) {
        return true;
    }
    read::at_least_none(scratch, k, c) || over_dkey(scratch, k, concept::child(scratch, c))
}

// Min or Max over Top, as an atom.
fn unqualified(scratch: &[u8], k: Counters, c: u32, v: u32) -> Atom
    requires { Reading scratch.now k × (c < k.concepts) × (11 ≤ field (words scratch.now) c 0) }
    ensures value { (env : Env) → EnvIn env k (words scratch.now) → result ≡ over_top env (pool_of (words scratch.now) k.concepts) v (concept_at (words scratch.now) c) }
    ensures fits { Fits result }
{
    let role = read::canon(scratch, k, c);
    let n = concept::number(scratch, c);
    if concept::kind(scratch, c) == MIN {
        return Atom::AtLeast(role, None, n, v);
    }
    Atom::AtMost(role, None, n, v)
}

// Min or Max.
fn counted(scratch: &[u8], k: Counters, c: u32, v: u32) -> Disjunct
    requires { Reading scratch.now k × (c < k.concepts) × (11 ≤ field (words scratch.now) c 0) }
    ensures value { (env : Env) → EnvIn env k (words scratch.now) → result ≡ disjunct_of env (pool_of (words scratch.now) k.concepts) v (concept_at (words scratch.now) c) }
    ensures disjunct_fits { DisjunctFits (concept_at (words scratch.now) c) result }
{
    if no_atom(scratch, k, c) {
        return Disjunct::Whole;
    }
    if read::is_top(scratch, k, concept::child(scratch, c)) {
        return Disjunct::Ready(unqualified(scratch, k, c, v));
    }
    Disjunct::Filler
}

pub fn disjunct_of(scratch: &[u8], k: Counters, c: u32, v: u32) -> Disjunct
    requires { Reading scratch.now k × (c < k.concepts) }
    ensures value { (env : Env) → EnvIn env k (words scratch.now) → result ≡ disjunct_of env (pool_of (words scratch.now) k.concepts) v (concept_at (words scratch.now) c) }
    ensures disjunct_fits { DisjunctFits (concept_at (words scratch.now) c) result }
{
    // By the record's number, as pool's concept_at goes: read as an enum, a word that is none of the twelve would need an arm of its own
    // here.
    match concept::kind(scratch, c) {
        ATOMIC => Disjunct::Ready(Atom::Class(concept::number(scratch, c), v)),
        NOMINAL => Disjunct::Ready(Atom::Class(k.nominal_base + concept::number(scratch, c), v)),
        NOT => excluded(leaf::negated(scratch, k, concept::child(scratch, c), 0)),
        SOME => Disjunct::Filler,
        MIN | MAX => counted(scratch, k, c, v),
        _ => Disjunct::Whole,
    }
}

// A fresh name for what atom a excludes: on X, since it says something of the name everywhere. Its body stands from `base` on.
pub fn name_negated(
    clauses: &mut [u8],
    atoms: &mut [u8],
    k: &mut Counters,
    scratch: &mut [u8],
    base: usize,
    a: Atom,
    v: u32,
) -> Result<Option<Atom>, Refusal>
    requires { (hands_at ≤ 6 * base) × (24 * (base + 2) ≤ length scratch.old) × Good k.old × (k.old.next_class ≤ k.old.visits + 8191) × Fits a × (6 * (base + 2) ≤ limits_at) × Sized (length clauses.old) (length atoms.old) 0 }
    ensures { let old = four (words scratch.old) (words clauses.old) (words atoms.old) in
        let new = four (words scratch.new) (words clauses.new) (words atoms.new) in
        ((d : List ℕ) → DidAtom 0 (λ env f s. name_negated env [] v a s) k.old base (old d) (new d) (headed k.new result)) × Behind (words scratch.old) (words scratch.new) }
{
    let q = k.fresh_class();
    record::put_atom(scratch, base, Atom::Class(q, 0));
    record::put_atom(scratch, base + 1, a);
    hands::push_none(clauses, atoms, k, scratch, base, 2)?;
    Ok(Some(Atom::Class(q, v)))
}

// The atom of restriction c over the class q.
pub fn filler_atom(scratch: &[u8], k: Counters, c: u32, v: u32, q: u32) -> Atom
    requires { Reading scratch.now k × (c < k.concepts) × Restricts (concept_at (words scratch.now) c) × (q + 1 < 2 ^ 32) }
    ensures value { (env : Env) → EnvIn env k (words scratch.now) → result ≡ filler_atom env (pool_of (words scratch.now) k.concepts) v (concept_at (words scratch.now) c) q }
    ensures fits { Fits result }
{
    let role = read::canon(scratch, k, c);
    let n = concept::number(scratch, c);
    let kind = concept::kind(scratch, c);
    if kind == SOME {
        return Atom::Exists(role, q, v);
    }
    if kind == MIN {
        return Atom::AtLeast(role, Some(q), n, v);
    }
    Atom::AtMost(role, Some(q), n, v)
}

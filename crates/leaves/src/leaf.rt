// emit_head where nothing is named.
// Atoms in hand are told by their first record and their number, two numbers, as `Did` has them.
// The bound of a number that is read from a word stays a clause: a type with it would be made at each read, to be taken apart again.
// `Fits` of an atom stays a clause: an enum holds no ghost field.
// A concept and a variable stay two numbers, as the rules have them.
// Clauses that repeat stay clauses: each function asks for the length that it reads; `Good` and `Reading` are about one moment of what is
// lent.
ghost use Rattle.std.specs.Prelude.{◌≡◌, [], ◌+◌, ◌*◌, ◌<◌, ◌≤◌, length, IfSome};
ghost use Rattle.words.specs.Words.{words};
ghost use Rattle.ir.specs.Scratch.{hands_at, limits_at};
ghost use Rattle.ir.specs.Records.{Fits};
ghost use Rattle.rules.specs.Pool.{Pool};
ghost use Rattle.rules.specs.State.{Env};
ghost use Rattle.pool.specs.Layout.{field, concept_at, pool_of};
ghost use Rattle.tables.specs.Good.{Good};
ghost use Rattle.waiting.specs.Limits.{Behind};
ghost use Rattle.hands.specs.Hands.{EnvIn, Did, four_of};
ghost use Rattle.leaves.specs.Classes.{option_in};
ghost use Rattle.leaves.specs.Leaves.{body_or, negated_atom, leaf_of, emit_leaf};
ghost use Rattle.leaves.specs.Reading.{Reading, LeafFits};
ghost use Rattle.ir.specs.Answer.{done};
ghost use Rattle.tables.specs.Lending.{SameReferences};

use crate::read;
use ir::atom::Atom;
use ir::counters::Counters;
use ir::deferral::Deferral;
use ir::record;
use ir::refusal::Refusal;
use pool::layout::{ATOMIC, BOT, MAX, MIN, NOMINAL, NOT, SELF};
use pool::record as concept;
use tables::lent::Tables;

// Of a concept: nothing, an empty head, one head atom, one body atom more, or deferral 8.
#[derive(Clone, Copy)]
pub enum Leaf {
    Nothing,
    Empty,
    Head(Atom),
    Body(Atom),
    Deferred,
}

// Of the negation of concept d: the atom that joins the body.
pub fn negated(scratch: &[u8], k: Counters, d: u32, v: u32) -> Option<Atom>
    requires { Reading scratch.now k × (d < k.concepts) }
    ensures result_value { (env : Env) → EnvIn env k (words scratch.now) → option_in result ≡ negated_atom env (pool_of (words scratch.now) k.concepts) v (concept_at (words scratch.now) d) }
    ensures literal_fits { IfSome result Fits }
{
    if concept::kind(scratch, d) == SELF {
        return Some(Atom::Role(read::canon(scratch, k, d), v, v));
    }
    let a = read::class_id_of(scratch, k, d)?;
    Some(Atom::Class(a, v))
}

// The atom joins the body; where there is none, deferral 8.
fn joined(x: Option<Atom>) -> Leaf
    requires { IfSome x Fits }
    ensures value { (env : Env) (p : Pool) → result ≡ body_or env p (option_in x) }
    ensures leaf_fits { LeafFits result }
{
    match x {
        Some(a) => Leaf::Body(a),
        None => Leaf::Deferred,
    }
}

// Of Min and Max over Top.
fn counted(scratch: &[u8], k: Counters, c: u32, v: u32) -> Leaf
    requires { Reading scratch.now k × (c < k.concepts) × (11 ≤ field (words scratch.now) c 0) }
    ensures value { (env : Env) → EnvIn env k (words scratch.now) → result ≡ leaf_of env (pool_of (words scratch.now) k.concepts) v (concept_at (words scratch.now) c) }
    ensures leaf_fits { LeafFits result }
{
    let n = concept::number(scratch, c);
    let role = read::canon(scratch, k, c);
    if concept::kind(scratch, c) == MAX {
        return Leaf::Head(Atom::AtMost(role, None, n, v));
    }
    if n == 0 {
        return Leaf::Nothing;
    }
    Leaf::Head(Atom::AtLeast(role, None, n, v))
}

pub fn leaf_of(scratch: &[u8], k: Counters, c: u32, v: u32) -> Leaf
    requires { Reading scratch.now k × (c < k.concepts) }
    ensures value { (env : Env) → EnvIn env k (words scratch.now) → result ≡ leaf_of env (pool_of (words scratch.now) k.concepts) v (concept_at (words scratch.now) c) }
    ensures leaf_fits { LeafFits result }
{
    // By the record's number, as pool's concept_at goes: read as an enum, a word that is none of the twelve would need an arm of its own
    // here.
    match concept::kind(scratch, c) {
        BOT => Leaf::Empty,
        ATOMIC => Leaf::Head(Atom::Class(concept::number(scratch, c), v)),
        NOMINAL => Leaf::Head(Atom::Class(k.nominal_base + concept::number(scratch, c), v)),
        SELF => Leaf::Head(Atom::Role(read::canon(scratch, k, c), v, v)),
        NOT => joined(negated(scratch, k, concept::child(scratch, c), v)),
        MIN | MAX => counted(scratch, k, c, v),
        _ => Leaf::Nothing,
    }
}

// What is pushed for it.
pub fn emit_leaf(
    lent: &mut Tables<'_>,
    scratch: &mut [u8],
    base: usize,
    n: u32,
    leaf: Leaf,
) -> Result<(), Refusal>
    requires { (n ≤ 256) × (hands_at ≤ 6 * base) × (24 * (base + n + 1) ≤ length scratch.old) × Good lent.old.counters × LeafFits leaf × (6 * (base + n + 1) ≤ limits_at) }
    ensures references { SameReferences lent.old lent.new }
    ensures did { let old = four_of (words scratch.old) lent.old in
        let new = four_of (words scratch.new) lent.new in
        Did (λ _. 0) 0 (λ env f b s. emit_leaf env [] b leaf s) lent.old.counters base n old new (done lent.new.counters result) × Behind old.scratch new.scratch }
{
    let k = &mut lent.counters;
    match leaf {
        Leaf::Nothing => Ok(()),
        Leaf::Empty => hands::push_none(lent.clauses, lent.atoms, k, scratch, base, n),
        Leaf::Head(a) => hands::push_one(lent.clauses, lent.atoms, k, scratch, base, n, a),
        Leaf::Body(a) => {
            if 256 <= n {
                return Err(Refusal::NoRoom);
            }
            record::put_atom(scratch, base + n as usize, a);
            hands::push_none(lent.clauses, lent.atoms, k, scratch, base, n + 1)
        }
        Leaf::Deferred => tables::defer(lent.deferrals, k, Deferral::HeadNotNonatomic),
    }
}

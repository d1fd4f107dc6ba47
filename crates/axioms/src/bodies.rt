// What is emitted for each alternative of an antecedent, one alternative in hand at a time.
// What never defers has two of the tables and the counters: with all of them it would say again what it leaves alone.
// The bound of a number that is read from a word stays a clause: a type with it would be made at each read, to be taken apart again.
// A concept, the number of its alternatives and their first variable stay three numbers, as `Sourced` has them: a struct would be made at each
// call and opened at each use.
// Clauses that repeat stay clauses: each function asks for the length that it reads; `Encoding` and `Good` are about one moment of what is
// lent.
ghost use Rattle.std.specs.Prelude.{◌≡◌, List, ℕ, ◌+◌, ◌*◌, ◌<◌, ◌≤◌, ◌^◌, length};
ghost use Rattle.words.specs.Words.{words};
ghost use Rattle.ir.specs.Scratch.{limits_at, limits_words};
ghost use Rattle.rules.specs.State.{Env, E};
ghost use Rattle.rules.specs.Heads.{emit_head};
ghost use Rattle.pool.specs.Layout.{pool_of};
ghost use Rattle.tables.specs.Drawn.{Sized};
ghost use Rattle.tables.specs.Good.{Good};
ghost use Rattle.hands.specs.Hands.{four, four_of};
ghost use Rattle.axioms.specs.RoleAxioms.{in_hand_bytes};
ghost use Rattle.axioms.specs.Bodies.{Encoding, Sourced, gives_class, Bodied, BodiedWaits};
ghost use Rattle.ir.specs.Answer.{done};
ghost use Rattle.tables.specs.Lending.{SameReferences};

use hands::HAND;
use heads::emit;
use ir::atom::Atom;
use ir::counters::Counters;
use ir::refusal::Refusal;
use tables::lent::Tables;

// Each alternative of `sub` gives the class. Beside emit_bodies, and no closure for both: what the steps have (no deferrals), ask (room
// in scratch) and promise (the limits that wait) differs, and each loop is three lines.
pub fn push_bodies(
    clauses: &mut [u8],
    atoms: &mut [u8],
    k: &mut Counters,
    scratch: &mut [u8],
    sub: u32,
    count: u32,
    y: u32,
    class: u32,
) -> Result<(), Refusal>
    requires { Encoding scratch.old k.old × (sub < k.old.concepts) × (in_hand_bytes ≤ length scratch.old) × (class + 1 < 2 ^ 32) × Good k.old × Sourced (words scratch.old) k.old sub y count × Sized (length clauses.old) (length atoms.old) 0 }
    ensures { let old = four (words scratch.old) (words clauses.old) (words atoms.old) in
        let new = four (words scratch.new) (words clauses.new) (words atoms.new) in
        ((d : List ℕ) → Bodied (gives_class class) k.old sub y count (old d) (new d) (done k.new result)) }
{
    for i in 0..count {
        let end = antecedents::write_alternative(scratch, *k, HAND, sub, 0, y, i);
        let n = (end - HAND) as u32;
        hands::push_one(clauses, atoms, k, scratch, HAND, n, Atom::Class(class, 0))?;
    }
    Ok(())
}

// Each of the `count` alternatives of `sub`, whose fresh variables begin with y, gives concept `head`.
pub fn emit_bodies(
    lent: &mut Tables<'_>,
    scratch: &mut [u8],
    sub: u32,
    count: u32,
    y: u32,
    head: u32,
) -> Result<(), Refusal>
    requires { Encoding scratch.old lent.old.counters × (sub < lent.old.counters.concepts) × (head < lent.old.counters.concepts) × (4 * (limits_at + limits_words) ≤ length scratch.old) × Good lent.old.counters × Sourced (words scratch.old) lent.old.counters sub y count }
    ensures references { SameReferences lent.old lent.new }
    ensures did { let old = four_of (words scratch.old) lent.old in
        let new = four_of (words scratch.new) lent.new in
        let rule : Env → List Atom → E (Unit {0}) = λ env b. emit_head env (pool_of old.scratch lent.old.counters.concepts) b head 0 in
        Bodied rule lent.old.counters sub y count old new (done lent.new.counters result) × BodiedWaits rule lent.old.counters sub y count old new }
{
    for i in 0..count {
        let end = antecedents::write_alternative(scratch, lent.counters, HAND, sub, 0, y, i);
        let n = (end - HAND) as u32;
        emit::emit_head(lent, scratch, HAND, n, head, 0)?;
    }
    Ok(())
}

// A disjoint pair: a clause without a head for each pair of alternatives.
// What never defers has two of the tables and the counters: with all of them it would say again what it leaves alone.
// The bound of a number that is read from a word stays a clause: a type with it would be made at each read, to be taken apart again.
// A concept, the number of its alternatives and their first variable stay three numbers, as `Sourced` has them: a struct would be made at each
// call and opened at each use.
// Clauses that repeat stay clauses: each function asks for the length that it reads; `Encoding` and `Good` are about one moment of what is
// lent.
ghost use Rattle.std.specs.Prelude.{◌≡◌, List, ℕ, ◌+◌, ◌<◌, ◌≤◌, length};
ghost use Rattle.words.specs.Words.{words};
ghost use Rattle.pool.specs.Layout.{pool_of};
ghost use Rattle.tables.specs.Drawn.{Sized};
ghost use Rattle.tables.specs.Good.{Good};
ghost use Rattle.hands.specs.Hands.{four, Did, four_of};
ghost use Rattle.axioms.specs.RoleAxioms.{hand_at, in_hand_bytes};
ghost use Rattle.axioms.specs.Bodies.{Encoding, Sourced};
ghost use Rattle.disjointness.specs.Pairs.{unencoded, pair_rule};
ghost use Rattle.disjointness.specs.PairTurns.{PushedWith, PushedPairs, GaveUp, First, pair_from};
ghost use Rattle.ir.specs.Answer.{done};
ghost use Rattle.tables.specs.Lending.{SameReferences};

use hands::HAND;
use ir::counters::Counters;
use ir::deferral::Deferral;
use ir::refusal::Refusal;
use tables::lent::Tables;

// What stands from HAND up to `top`, with each of the `count` alternatives of b behind it.
fn push_with(
    clauses: &mut [u8],
    atoms: &mut [u8],
    k: &mut Counters,
    scratch: &mut [u8],
    top: usize,
    b: u32,
    count: u32,
    y: u32,
) -> Result<(), Refusal>
    requires { Encoding scratch.old k.old × (b < k.old.concepts) × (in_hand_bytes ≤ length scratch.old) × (hand_at ≤ top) × (top ≤ hand_at + 256) × Good k.old × Sourced (words scratch.old) k.old b y count × Sized (length clauses.old) (length atoms.old) 0 }
    ensures { let old = four (words scratch.old) (words clauses.old) (words atoms.old) in
        let new = four (words scratch.new) (words clauses.new) (words atoms.new) in
        ((d : List ℕ) → PushedWith k.old top b count y (old d) (new d) (done k.new result)) }
{
    for j in 0..count {
        let end = antecedents::write_alternative(scratch, *k, top, b, 0, y, j);
        if HAND + 256 < end {
            return Err(Refusal::NoRoom);
        }
        let n = (end - HAND) as u32;
        hands::push_none(clauses, atoms, k, scratch, HAND, n)?;
    }
    Ok(())
}

// Each of the alternatives of a, whose variables begin with 1, with each of those of b, whose variables begin with y.
fn push_pairs(
    clauses: &mut [u8],
    atoms: &mut [u8],
    k: &mut Counters,
    scratch: &mut [u8],
    a: u32,
    count: u32,
    b: u32,
    others: u32,
    y: u32,
) -> Result<(), Refusal>
    requires { Encoding scratch.old k.old × (a < k.old.concepts) × (b < k.old.concepts) × (in_hand_bytes ≤ length scratch.old) × Good k.old × Sourced (words scratch.old) k.old a 1 count × Sourced (words scratch.old) k.old b y others × Sized (length clauses.old) (length atoms.old) 0 }
    ensures { let old = four (words scratch.old) (words clauses.old) (words atoms.old) in
        let new = four (words scratch.new) (words clauses.new) (words atoms.new) in
        ((d : List ℕ) → PushedPairs k.old a count b others y (old d) (new d) (done k.new result)) }
{
    for i in 0..count {
        let top = antecedents::write_alternative(scratch, *k, HAND, a, 0, 1, i);
        push_with(clauses, atoms, k, scratch, top, b, others, y)?;
    }
    Ok(())
}

// A pair that cannot be encoded: deferral 1, or nothing in a disjoint union. `deferred` is the rule's own Bool.
fn give_up(deferrals: &mut [u8], k: &mut Counters, deferred: bool) -> Result<(), Refusal>
    requires { Sized 0 0 (length deferrals.old) }
    ensures { GaveUp k.old deferred (words deferrals.old) (words deferrals.new) (done k.new result) }
{
    if deferred {
        return tables::defer(deferrals, k, Deferral::DisjointAntecedent);
    }
    Ok(())
}

// The second is encoded whatever the first is: its visits count. `deferred` is the rule's own Bool.
pub fn disjoint_pair(
    lent: &mut Tables<'_>,
    scratch: &mut [u8],
    a: u32,
    b: u32,
    deferred: bool,
) -> Result<(), Refusal>
    requires { Encoding scratch.old lent.old.counters × (a < lent.old.counters.concepts) × (b < lent.old.counters.concepts) × (in_hand_bytes ≤ length scratch.old) × Good lent.old.counters }
    ensures references { SameReferences lent.old lent.new }
    ensures did { let old = four_of (words scratch.old) lent.old in
        let new = four_of (words scratch.new) lent.new in
        Did (λ _. 0) 0 (λ env f h s. pair_rule env (unencoded env deferred) a b (pool_of old.scratch lent.old.counters.concepts) s) lent.old.counters hand_at 0 old new (done lent.new.counters result) }
{
    lent.counters.restart_vars();
    let first = antecedents::encode_antecedent(scratch, &mut lent.counters, a)?;
    let y = lent.counters.next_var;
    let second = antecedents::encode_antecedent(scratch, &mut lent.counters, b)?;
    let (Some(alts_a), Some(alts_b)) = (first, second) else {
        return give_up(lent.deferrals, &mut lent.counters, deferred);
    };
    push_pairs(
        lent.clauses,
        lent.atoms,
        &mut lent.counters,
        scratch,
        a,
        alts_a.count,
        b,
        alts_b.count,
        y,
    )
}

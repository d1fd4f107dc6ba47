// apply_reflexive_roles: a clause for each contraction along a reflexive role atom, and of these in turn.
// The bound of a number that is read from a word stays a clause: a type with it would be made at each read, to be taken apart again.
// Clauses that repeat stay clauses: each function asks for the length that it reads; `Good` is about one moment of what is lent.
ghost use Rattle.std.specs.Prelude.{◌≡◌, List, ◌∷◌, ◌++◌, ℕ, ◌+◌, ◌<◌, ◌≤◌, eqb, length, get_or};
ghost use Rattle.words.specs.Words.{words};
ghost use Rattle.ir.specs.declared.atom.Atom.{Atom};
ghost use Rattle.rules.specs.State.{Env, Out, Clause, clause};
ghost use Rattle.rules.specs.Reflexive.{reflexive_derived_cap, Derived, derive, apply_reflexive_roles};
ghost use Rattle.tables.specs.Drawn.{Lent};
ghost use Rattle.tables.specs.Good.{Good};
ghost use Rattle.hands.specs.Hands.{four_of};
ghost use Rattle.reflexive.specs.Flags.{FlagsHeld};
ghost use Rattle.contraction.specs.InHands.{in_hand_bytes, ClauseInHand};
ghost use Rattle.contraction.specs.Passes.{Standing, Drawn, StandingAfter, Passed};
ghost use Rattle.tables.specs.Tabled.{body_count, no_clause};
ghost use Rattle.unfolding.specs.Unfolding.{unfold_one, Counted, Stands, Follows, unfolded, Unfolds, Answered};
ghost use Rattle.ir.specs.Answer.{done};
ghost use Rattle.tables.specs.Lending.{SameReferences};

use contraction::clause::Hand;
use contraction::{clause, contract};
use hands::HAND;
use ir::deferral::Deferral;
use ir::refusal::Refusal;
use tables::lent::Tables;
use tables::read;

// The derived clauses of the queue: a word each where the pool was.
const QUEUE: usize = 0;

// REFLEXIVE_DERIVED_CAP
const CAP: u32 = 4096;

// The clause in hand is new. Answers how many derived clauses are in the queue; None at the cap.
fn derive(
    lent: &mut Tables<'_>,
    scratch: &mut [u8],
    originals: u32,
    queued: u32,
    hand: Hand,
) -> Result<Option<u32>, Refusal>
    requires { Counted originals lent.old.counters queued × (hand.body ≤ 256) × (hand.head ≤ 256) × Good lent.old.counters × (in_hand_bytes ≤ length scratch.old) }
    ensures references { SameReferences lent.old lent.new }
    ensures fact { let old = four_of (words scratch.old) lent.old in
        let new = four_of (words scratch.new) lent.new in
        ((env : Env) (set : List ℕ) (left : ℕ) (v : Derived) (s : Out) (x : Clause)
        → Lent env.rooms old.clauses old.atoms old.deferrals → Stands env set originals left lent.old.counters old queued v s → ClauseInHand old.scratch hand.body hand.head x → Follows s x
        → Unfolds env set originals left lent.old.counters queued new v s (derive env set x v (eqb (length v.seen) reflexive_derived_cap) s) (unfolded lent.new.counters result)) }
    ensures answered { Answered lent.old.counters (words scratch.old) (words scratch.new) (unfolded lent.new.counters result) }
{
    let number = lent.counters.clauses;
    if number - originals == CAP {
        tables::defer(
            lent.deferrals,
            &mut lent.counters,
            Deferral::ReflexiveDerivedCap,
        )?;
        return Ok(None);
    }
    let k = &mut lent.counters;
    hands::push_run(
        lent.clauses,
        lent.atoms,
        k,
        scratch,
        HAND,
        hand.body,
        hand.head,
    )?;
    words::put_word(scratch, QUEUE + queued as usize, number);
    Ok(Some(queued + 1))
}

// Clause c contracted along its body atom i, a role atom over a reflexive role.
fn unfold_at(
    lent: &mut Tables<'_>,
    scratch: &mut [u8],
    originals: u32,
    queued: u32,
    c: u32,
    i: u32,
) -> Result<Option<u32>, Refusal>
    requires { Standing lent.old.counters (words lent.old.clauses.now) (words lent.old.atoms.now) × (c < lent.old.counters.clauses) × (i < body_count (words lent.old.clauses.now) c) × Counted originals lent.old.counters queued × Good lent.old.counters × (in_hand_bytes ≤ length scratch.old) }
    ensures references { SameReferences lent.old lent.new }
    ensures fact { let old = four_of (words scratch.old) lent.old in
        let new = four_of (words scratch.new) lent.new in
        ((env : Env) (set : List ℕ) (left : ℕ) (v : Derived) (s : Out) (before after head : List Atom) (x : Atom)
        → FlagsHeld old.scratch set → Lent env.rooms old.clauses old.atoms old.deferrals → Stands env set originals left lent.old.counters old queued v s
        → get_or s.clauses c no_clause ≡ clause (before ++ (x ∷ after)) head → i ≡ length before
        → Unfolds env set originals left lent.old.counters queued new v s (unfold_one env set before after head x v s) (unfolded lent.new.counters result)) }
    ensures answered { Answered lent.old.counters (words scratch.old) (words scratch.new) (unfolded lent.new.counters result) }
{
    let clauses = &mut *lent.clauses;
    let atoms = &mut *lent.atoms;
    let body = read::body_of(clauses, atoms, c);
    if !clause::is_reflexive(scratch, body, i) {
        return Ok(Some(queued));
    }
    contract::put_contracted(scratch, body, read::head_of(clauses, atoms, c), i);
    let nb = read::body_count(clauses, c);
    let nh = read::head_count(clauses, c);
    let hand = Hand {
        body: nb - 1,
        head: nh,
    };
    if contract::is_trivial(scratch, hand) {
        return Ok(Some(queued));
    }
    let end = lent.counters.clauses;
    if clause::is_among(scratch, clauses, atoms, hand, originals, end) {
        return Ok(Some(queued));
    }
    derive(lent, scratch, originals, queued, hand)
}

// The queue: the table's own clauses, the last first, and above them the derived ones.
pub fn apply_reflexive_roles(lent: &mut Tables<'_>, scratch: &mut [u8]) -> Result<(), Refusal>
    requires { Standing lent.old.counters (words lent.old.clauses.now) (words lent.old.atoms.now) × Drawn lent.old.counters (words lent.old.clauses.now) (words lent.old.atoms.now) (words lent.old.deferrals.now) × Good lent.old.counters × (338400 ≤ length scratch.old) }
    ensures references { SameReferences lent.old lent.new }
    ensures fact { let old = four_of (words scratch.old) lent.old in
        let new = four_of (words scratch.new) lent.new in
        Passed (λ env set. apply_reflexive_roles env set) lent.old.counters old new (done lent.new.counters result) }
    ensures standing_after { StandingAfter (words lent.new.clauses.now) (words lent.new.atoms.now) (done lent.new.counters result) }
{
    let originals = lent.counters.clauses;
    let mut left = originals;
    let mut queued: u32 = 0;
    // the queue grows while it is emptied
    'unfolding: while 0 < left + queued {
        let c = if 0 < queued {
            queued -= 1;
            words::get_word(scratch, QUEUE + queued as usize)
        } else {
            left -= 1;
            left
        };
        let clauses = &mut *lent.clauses;
        for i in 0..read::body_count(clauses, c) {
            let Some(more) = unfold_at(lent, scratch, originals, queued, c, i)? else {
                break 'unfolding;
            };
            queued = more;
        }
    }
    Ok(())
}

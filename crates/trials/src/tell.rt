// The reply of a run, told with a state.
ghost use Rattle.std.specs.Prelude.{◌≡◌, List, ℕ, length, replicate, Err};
ghost use Rattle.states.specs.Test as Test;
ghost use Rattle.clausify.specs.Reply.{told_reply};
ghost use Rattle.trials.specs.Tried.{told_trial};
ghost use Rattle.trials.specs.Tells.{TellThere, TellsAs, kept_of};

use crate::judged::Verdict;
use crate::{by_axioms, by_clauses, report};
use clausify::answer;
use clausify::numbers::Numbers;
use ir::answer::Refused;

// A refusal of the run: zeros in the store.
fn refuse(e: Refused, store: &mut [u8]) -> Result<Verdict, Refused>
    ensures value { result ≡ Err e }
    ensures store_after { store.new ≡ replicate (length store.old) 0 }
{
    words::clear(store);
    Err(e)
}

// By the axioms.
pub fn tell_axioms(
    reply: Result<Numbers, Refused>,
    deck: &[u8],
    state: &[u8],
    store: &mut [u8],
    scratch: &mut [u8],
) -> Result<Verdict, Refused>
    requires { (c a : List ℕ) × TellThere deck.now c a store.old scratch.old (told_reply reply) }
    ensures { (c a : List ℕ) → TellsAs Test.axioms deck.now state.now c a (length store.old) (told_reply reply) store.new (told_trial result) }
{
    match reply {
        Ok(n) => {
            let judged = by_axioms::judge(deck, state, store, scratch, n.fresh_ids);
            report::report(judged, n, store, scratch)
        }
        Err(e) => refuse(e, store),
    }
}

// By the clauses in the tables.
pub fn tell_clauses(
    reply: Result<Numbers, Refused>,
    deck: &[u8],
    state: &[u8],
    clauses: &[u8],
    atoms: &[u8],
    store: &mut [u8],
    scratch: &mut [u8],
) -> Result<Verdict, Refused>
    requires { TellThere deck.now clauses.now atoms.now store.old scratch.old (told_reply reply) }
    ensures { TellsAs Test.clauses deck.now state.now clauses.now atoms.now (length store.old) (told_reply reply) store.new (told_trial result) }
{
    match reply {
        Ok(n) => {
            let judged = by_clauses::judge(
                deck,
                state,
                clauses,
                atoms,
                store,
                scratch,
                n.stats.total,
                n.fresh_ids,
            );
            report::report(judged, n, store, scratch)
        }
        Err(e) => refuse(e, store),
    }
}

// A refusal leaves zeros in the run's tables.
pub fn settle(
    tried: Result<Verdict, Refused>,
    clauses: &mut [u8],
    atoms: &mut [u8],
    deferrals: &mut [u8],
)
    ensures clauses_after { clauses.new ≡ kept_of (told_trial tried) clauses.old }
    ensures atoms_after { atoms.new ≡ kept_of (told_trial tried) atoms.old }
    ensures deferrals_after { deferrals.new ≡ kept_of (told_trial tried) deferrals.old }
{
    if tried.is_err() {
        answer::blank(clauses, atoms, deferrals);
    }
}

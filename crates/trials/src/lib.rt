// The test of a state: try_axioms and try_clauses. Neither asks anything of what it is lent. Each contract gives the reply, and every
// byte of every table at exit, as a function of the deck's bytes, the state's bytes and the tables' lengths alone, and says what the
// clauses in these bytes mean, and what the other test will say.
// The tables are slices each by itself: so the C interface lends them. The two entries and the two of `tell` stand side by side, since
// no other form is plainer. With the judge as a closure, one `tell` asks that it may be called on this run and that what it leaves may
// be reported, and promises by what it said: each caller proves what each `tell` proves now, in the closure's terms. With an enum of
// the two tests, one `tell` is a match over the same two calls. Each entry would still be its promises and one call.
#![tactic(auto)]

mod by_axioms;
mod by_clauses;
pub mod judged;
mod opened;
mod report;
mod tell;

ghost use Rattle.std.specs.Prelude.{◌≡◌};
ghost use Rattle.rules.specs.Run.{scratch_table};
ghost use Rattle.states.specs.Test.{test_state, tested_clauses, tested_atoms, tested_deferrals, store_table};
ghost use Rattle.states.specs.Test as Test;
ghost use Rattle.states.specs.Seen.{SeenByAxioms, SeenByClauses};
ghost use Rattle.trials.specs.Tried.{told_trial};
ghost use Rattle.trials.specs.Entry.{lent_all, tried_of, MeantTried};

use clausify::fitted;
use ir::answer::Refused;
use judged::Verdict;

// The least size of the store, in bytes.
const STORE: usize = 65536;

// A deck's axioms tested in a state.
pub fn try_axioms(
    deck: &[u8],
    state: &[u8],
    clauses: &mut [u8],
    atoms: &mut [u8],
    deferrals: &mut [u8],
    store: &mut [u8],
    scratch: &mut [u8],
) -> Result<Verdict, Refused>
    ensures reply { let t = lent_all clauses.old atoms.old deferrals.old store.old scratch.old in
        let o = test_state Test.axioms deck.now state.now t in
        told_trial result ≡ tried_of o }
    ensures clauses { let t = lent_all clauses.old atoms.old deferrals.old store.old scratch.old in
        let o = test_state Test.axioms deck.now state.now t in
        clauses.new ≡ tested_clauses t o }
    ensures atoms { let t = lent_all clauses.old atoms.old deferrals.old store.old scratch.old in
        let o = test_state Test.axioms deck.now state.now t in
        atoms.new ≡ tested_atoms t o }
    ensures deferrals { let t = lent_all clauses.old atoms.old deferrals.old store.old scratch.old in
        let o = test_state Test.axioms deck.now state.now t in
        deferrals.new ≡ tested_deferrals t o }
    ensures store { let t = lent_all clauses.old atoms.old deferrals.old store.old scratch.old in
        let o = test_state Test.axioms deck.now state.now t in
        store.new ≡ store_table t o }
    ensures scratch { let t = lent_all clauses.old atoms.old deferrals.old store.old scratch.old in
        scratch.new ≡ scratch_table t.run }
    ensures meaning { MeantTried deck.now clauses.new atoms.new store.new (told_trial result) }
    ensures seen { let t = lent_all clauses.old atoms.old deferrals.old store.old scratch.old in
        SeenByAxioms deck.now state.now t (test_state Test.axioms deck.now state.now t) }
{
    let fit = STORE <= store.len();
    let reply = fitted::answer_if(fit, deck, clauses, atoms, deferrals, scratch);
    let tried = tell::tell_axioms(reply, deck, state, store, scratch);
    words::clear(scratch);
    tell::settle(tried, clauses, atoms, deferrals);
    tried
}

// Its clauses, those that the call leaves in the tables.
pub fn try_clauses(
    deck: &[u8],
    state: &[u8],
    clauses: &mut [u8],
    atoms: &mut [u8],
    deferrals: &mut [u8],
    store: &mut [u8],
    scratch: &mut [u8],
) -> Result<Verdict, Refused>
    ensures reply { let t = lent_all clauses.old atoms.old deferrals.old store.old scratch.old in
        let o = test_state Test.clauses deck.now state.now t in
        told_trial result ≡ tried_of o }
    ensures clauses { let t = lent_all clauses.old atoms.old deferrals.old store.old scratch.old in
        let o = test_state Test.clauses deck.now state.now t in
        clauses.new ≡ tested_clauses t o }
    ensures atoms { let t = lent_all clauses.old atoms.old deferrals.old store.old scratch.old in
        let o = test_state Test.clauses deck.now state.now t in
        atoms.new ≡ tested_atoms t o }
    ensures deferrals { let t = lent_all clauses.old atoms.old deferrals.old store.old scratch.old in
        let o = test_state Test.clauses deck.now state.now t in
        deferrals.new ≡ tested_deferrals t o }
    ensures store { let t = lent_all clauses.old atoms.old deferrals.old store.old scratch.old in
        let o = test_state Test.clauses deck.now state.now t in
        store.new ≡ store_table t o }
    ensures scratch { let t = lent_all clauses.old atoms.old deferrals.old store.old scratch.old in
        scratch.new ≡ scratch_table t.run }
    ensures meaning { MeantTried deck.now clauses.new atoms.new store.new (told_trial result) }
    ensures seen { let t = lent_all clauses.old atoms.old deferrals.old store.old scratch.old in
        SeenByClauses deck.now state.now t (test_state Test.clauses deck.now state.now t) }
{
    let fit = STORE <= store.len();
    let reply = fitted::answer_if(fit, deck, clauses, atoms, deferrals, scratch);
    let tried = tell::tell_clauses(reply, deck, state, clauses, atoms, store, scratch);
    words::clear(scratch);
    tell::settle(tried, clauses, atoms, deferrals);
    tried
}

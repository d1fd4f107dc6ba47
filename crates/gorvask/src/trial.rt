// try_axioms and try_clauses for callers in C and Rust.
ghost use Rattle.std.specs.Prelude.{◌≡◌};
ghost use Rattle.rules.specs.Run.{scratch_table};
ghost use Rattle.states.specs.Test.{test_state, tested_code, tested_clauses, tested_atoms, tested_deferrals, store_table};
ghost use Rattle.states.specs.Test as Test;
ghost use Rattle.states.specs.Seen.{SeenByAxioms, SeenByClauses};
ghost use Rattle.trials.specs.Tried.{told_trial};
ghost use Rattle.trials.specs.Entry.{lent_all};
ghost use Rattle.gorvask.specs.Trials.{code_of_tried, MeantCode};

use crate::reply;
use ir::answer::Refused;
use trials::judged::Verdict;

// No From, as in reply: 0 where all hold, 1 where something is broken; a refusal's number × 2^32 + line.
fn code(tried: Result<Verdict, Refused>) -> u64
    ensures { result ≡ code_of_tried (told_trial tried) }
{
    match tried {
        Ok(Ok(())) => 0,
        Ok(Err(_)) => 1,
        Err(e) => reply::refused(e),
    }
}

// The reply is one number; what is broken and the elements that show it stand in the store.
#[unsafe(no_mangle)]
pub extern "C" fn gorvask_try_axioms(
    deck: &[u8],
    state: &[u8],
    clauses: &mut [u8],
    atoms: &mut [u8],
    deferrals: &mut [u8],
    store: &mut [u8],
    scratch: &mut [u8],
) -> u64
    ensures reply { let t = lent_all clauses.old atoms.old deferrals.old store.old scratch.old in
        let o = test_state Test.axioms deck.now state.now t in
        result ≡ tested_code o }
    ensures clauses { let t = lent_all clauses.old atoms.old deferrals.old store.old scratch.old in
        let o = test_state Test.axioms deck.now state.now t in
        clauses.new ≡ tested_clauses t o }
    ensures atoms { let t = lent_all clauses.old atoms.old deferrals.old store.old scratch.old in
        let o = test_state Test.axioms deck.now state.now t in
        atoms.new ≡ tested_atoms t o }
    ensures deferrals { let t = lent_all clauses.old atoms.old deferrals.old store.old scratch.old in
        let o = test_state Test.axioms deck.now state.now t in
        deferrals.new ≡ tested_deferrals t o }
    ensures store { let t = lent_all clauses.old atoms.old deferrals.old store.old scratch.old in
        let o = test_state Test.axioms deck.now state.now t in
        store.new ≡ store_table t o }
    ensures scratch { let t = lent_all clauses.old atoms.old deferrals.old store.old scratch.old in
        scratch.new ≡ scratch_table t.run }
    ensures meaning { MeantCode deck.now clauses.new atoms.new store.new result }
    ensures seen { let t = lent_all clauses.old atoms.old deferrals.old store.old scratch.old in
        SeenByAxioms deck.now state.now t (test_state Test.axioms deck.now state.now t) }
{
    let tried = trials::try_axioms(deck, state, clauses, atoms, deferrals, store, scratch);
    code(tried)
}

// The same by the clauses: two exported C names, so two functions.
#[unsafe(no_mangle)]
pub extern "C" fn gorvask_try_clauses(
    deck: &[u8],
    state: &[u8],
    clauses: &mut [u8],
    atoms: &mut [u8],
    deferrals: &mut [u8],
    store: &mut [u8],
    scratch: &mut [u8],
) -> u64
    ensures reply { let t = lent_all clauses.old atoms.old deferrals.old store.old scratch.old in
        let o = test_state Test.clauses deck.now state.now t in
        result ≡ tested_code o }
    ensures clauses { let t = lent_all clauses.old atoms.old deferrals.old store.old scratch.old in
        let o = test_state Test.clauses deck.now state.now t in
        clauses.new ≡ tested_clauses t o }
    ensures atoms { let t = lent_all clauses.old atoms.old deferrals.old store.old scratch.old in
        let o = test_state Test.clauses deck.now state.now t in
        atoms.new ≡ tested_atoms t o }
    ensures deferrals { let t = lent_all clauses.old atoms.old deferrals.old store.old scratch.old in
        let o = test_state Test.clauses deck.now state.now t in
        deferrals.new ≡ tested_deferrals t o }
    ensures store { let t = lent_all clauses.old atoms.old deferrals.old store.old scratch.old in
        let o = test_state Test.clauses deck.now state.now t in
        store.new ≡ store_table t o }
    ensures scratch { let t = lent_all clauses.old atoms.old deferrals.old store.old scratch.old in
        scratch.new ≡ scratch_table t.run }
    ensures meaning { MeantCode deck.now clauses.new atoms.new store.new result }
    ensures seen { let t = lent_all clauses.old atoms.old deferrals.old store.old scratch.old in
        SeenByClauses deck.now state.now t (test_state Test.clauses deck.now state.now t) }
{
    let tried = trials::try_clauses(deck, state, clauses, atoms, deferrals, store, scratch);
    code(tried)
}

// The first clause that is broken, and the least elements that break it.
// Clauses that repeat stay clauses: each function asks for the length that it reads.
ghost use Rattle.std.specs.Prelude.{◌≡◌, false, List, ℕ, ◌≤◌, ◌+◌, ◌*◌, length, take};
ghost use Rattle.words.specs.Words.{words};
ghost use Rattle.rules.specs.Base.{any};
ghost use Rattle.rules.specs.State.{Clause};
ghost use Rattle.rules.specs.Invariants.{Each};
ghost use Rattle.rules.specs.Run.{scratch_bytes};
ghost use Rattle.rules.specs.Semantics.{Interpretation};
ghost use Rattle.states.specs.Conditions.{clause_broken};
ghost use Rattle.states.specs.Test.{holds, or_broken, wide_clause, clauses_verdict};
ghost use Rattle.sets.specs.Places.{vars_at, shown_at};
ghost use Rattle.sets.specs.Verdicts.{shown, verdict_in};
ghost use Rattle.tables.specs.Tabled.{Tabled};
ghost use Rattle.clausetests.specs.Given.{Given};
ghost use Rattle.clausetests.specs.Fitting.{Changed};
ghost use Rattle.clausetests.specs.Clauses.{ClauseNames, ClausesThere, ClauseIs, ClauseHere};

use crate::{State, fitting, search, vars};
use sets::places::SHOWN;
use sets::verdict::Broken;
use tables::read;

// The elements stand in scratch. (A range: `enumerate` would give each place and element, and the clause is of places alone.)
fn put_shown(scratch: &mut [u8], found: [u32; 4])
    requires { scratch_bytes ≤ length scratch.old }
    ensures by_index { (k : ℕ) → k ≤ 4 → shown (words scratch.new) k ≡ take k found }
    ensures changed { Changed shown_at (shown_at + 4) (words scratch.old) (words scratch.new) }
{
    for i in 0..4 {
        words::put_word(scratch, SHOWN + i, found[i]);
    }
}

// Clause i. (Clauses and atoms each by itself: they are only read here, and `Tables` lends them to be written.)
fn clause_verdict(
    state: &State,
    clauses: &[u8],
    atoms: &[u8],
    scratch: &mut [u8],
    i: u32,
) -> Result<(), Broken>
    requires { ClauseHere state.now.size i state.now.text.now clauses.now atoms.now state.now.store.now scratch.old }
    ensures result_after { (I : Interpretation) (roles : ℕ) (c : Clause) → ClauseIs I roles state.now.size c i state.now.text.now (words clauses.now) (words atoms.now) (words state.now.store.now) (words scratch.old) → verdict_in (words scratch.new) result ≡ or_broken i (clause_broken I c) holds }
    ensures changed { Changed (2 * vars_at) (shown_at + 4) (words scratch.old) (words scratch.new) }
{
    let v = vars::clause_vars(read::atoms_of(clauses, atoms, i));
    let body = read::body_of(clauses, atoms, i);
    let head = read::head_of(clauses, atoms, i);
    fitting::clause_tables(state, scratch, body, head, v);
    if let Some(found) = search::search(scratch, v.n, state.size) {
        put_shown(scratch, found);
        return Err(Broken { at: i, shown: v.n });
    }
    Ok(())
}

// The first `count` clauses.
pub fn clauses_verdict(
    text: &[u8],
    clauses: &[u8],
    atoms: &[u8],
    store: &[u8],
    scratch: &mut [u8],
    count: u32,
    size: u32,
) -> Result<(), Broken>
    requires { ClausesThere size count text.now clauses.now atoms.now store.now scratch.old }
    ensures { (I : Interpretation) (roles : ℕ) (l : List Clause) → Given I roles size text.now (words store.now) (words scratch.old) → Tabled (words clauses.now) (words atoms.now) count l → Each (ClauseNames roles) l → any wide_clause l ≡ false → verdict_in (words scratch.new) result ≡ clauses_verdict I l }
{
    let state = State { text, store, size };
    for i in 0..count {
        clause_verdict(&state, clauses, atoms, scratch, i)?;
    }
    Ok(())
}

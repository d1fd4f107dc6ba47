// The clauses' test of a deck that was run, by the clauses in the tables.
ghost use Rattle.std.specs.Prelude.{◌≡◌, List, ℕ, ◌≤◌, length};
ghost use Rattle.words.specs.Words.{words};
ghost use Rattle.rules.specs.Base.{any};
ghost use Rattle.rules.specs.State.{Clause};
ghost use Rattle.rules.specs.Deck.{Known, fine, read_deck};
ghost use Rattle.rules.specs.Semantics.{Interpretation};
ghost use Rattle.states.specs.State.{read_state};
ghost use Rattle.states.specs.Test.{clauses_verdict, wide_clause};
ghost use Rattle.states.specs.Test as Test;
ghost use Rattle.trials.specs.Judged.{unless_denied, judged_of, said_in};
ghost use Rattle.trials.specs.Judging.{Clausal, ClausalThere, Clauses, JudgeThere};

use crate::judged::Verdict;
use crate::opened;
use clausetests::{vars, verdict};
use ir::answer::Refused;
use ir::refusal::Refusal;

// In a state that is laid out: 14, before any verdict, or the verdict.
fn tested(
    state: &[u8],
    clauses: &[u8],
    atoms: &[u8],
    store: &[u8],
    scratch: &mut [u8],
    count: u32,
    size: u32,
) -> Result<Verdict, Refused>
    requires { ClausalThere size count state.now clauses.now atoms.now store.now scratch.old }
    ensures { (I : Interpretation) (roles : ℕ) (l : List Clause) → Clausal I roles size count l state.now (words clauses.now) (words atoms.now) (words store.now) (words scratch.old) → said_in (words scratch.new) result ≡ unless_denied (clauses_verdict I l) (any wide_clause l) }
{
    if vars::wide(clauses, atoms, count) {
        return Err(Refused::from(Refusal::WideClause));
    }
    Ok(verdict::clauses_verdict(state, clauses, atoms, store, scratch, count, size))
}

pub fn judge(
    deck: &[u8],
    state: &[u8],
    clauses: &[u8],
    atoms: &[u8],
    store: &mut [u8],
    scratch: &mut [u8],
    count: u32,
    fresh: u32,
) -> Result<Verdict, Refused>
    requires { JudgeThere deck.now clauses.now atoms.now store.old scratch.old count «fresh» }
    ensures { (d : Known) (l : List Clause) → read_deck deck.now ≡ fine d → Clauses d count l (words clauses.now) (words atoms.now) → said_in (words scratch.new) result ≡ judged_of Test.clauses d l (read_state d «fresh» state.now) }
{
    let m = opened::limits(deck, scratch, fresh);
    let size = layouts::read_state(state, store, scratch, m)?;
    tested(state, clauses, atoms, store, scratch, count, size)
}

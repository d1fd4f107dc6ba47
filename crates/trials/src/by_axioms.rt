// The axioms' test of a deck that was run.
// Clauses that repeat stay clauses: each function asks for the length that it reads; `ReadyThere` is about one moment of what is lent.
ghost use Rattle.std.specs.Prelude.{◌≡◌, List, ℕ, ◌≤◌, length};
ghost use Rattle.words.specs.Words.{words};
ghost use Rattle.rules.specs.State.{Clause};
ghost use Rattle.rules.specs.Deck.{Known, fine, read_deck};
ghost use Rattle.rules.specs.Run.{scratch_bytes};
ghost use Rattle.rules.specs.Semantics.{Interpretation};
ghost use Rattle.states.specs.State.{read_state};
ghost use Rattle.states.specs.Test.{store_bytes, axioms_verdict};
ghost use Rattle.states.specs.Test as Test;
ghost use Rattle.sets.specs.Verdicts.{verdict_in};
ghost use Rattle.extents.specs.Ready.{Ready, Fits, ReadyThere};
ghost use Rattle.layouts.specs.Read.{Declares};
ghost use Rattle.trials.specs.Judged.{judged_of, said_in};
ghost use Rattle.trials.specs.Judging.{trial_of, LoadedThere, InScratch};

use crate::judged::Verdict;
use crate::opened;
use extents::Trial;
use ir::answer::Refused;
use ir::counters::Counters;
use layouts::limits::Limits;
use ontology::load;

// In a state that is laid out.
fn verdict(store: &[u8], scratch: &mut [u8], t: Trial) -> Verdict
    requires { ReadyThere store.now scratch.old t }
    ensures { (d : Known) (I : Interpretation) → Ready d I (words store.now) (words scratch.old) → Fits d I t → verdict_in (words scratch.new) result ≡ axioms_verdict I d }
{
    extents::concept_sets(store, scratch, t);
    axiomtests::axioms_verdict(store, scratch, t)
}

// The numbers of a deck that stands in scratch, and a state of so many elements.
fn trial(k: Counters, n: u32, size: u32) -> Trial
    ensures { result ≡ trial_of k n size }
{
    Trial {
        size,
        base: k.nominal_base,
        concepts: k.concepts,
        axioms: n,
        line: k.line,
    }
}

// With the deck in scratch.
fn loaded(
    state: &[u8],
    store: &mut [u8],
    scratch: &mut [u8],
    m: Limits,
    k: Counters,
    n: u32,
) -> Result<Verdict, Refused>
    requires { LoadedThere store.old scratch.old m k n }
    ensures { (d : Known) (l : List Clause) → InScratch d (words scratch.old) k n → Declares d m → said_in (words scratch.new) result ≡ judged_of Test.axioms d l (read_state d m.fresh state.now) }
{
    let size = layouts::read_state(state, store, scratch, m)?;
    Ok(verdict(store, scratch, trial(k, n, size)))
}

pub fn judge(
    deck: &[u8],
    state: &[u8],
    store: &mut [u8],
    scratch: &mut [u8],
    fresh: u32,
) -> Result<Verdict, Refused>
    requires { (store_bytes ≤ length store.old) × (scratch_bytes ≤ length scratch.old) × («fresh» ≤ 2000000) × ((d : Known) × (read_deck deck.now ≡ fine d)) }
    ensures { (d : Known) (l : List Clause) → read_deck deck.now ≡ fine d → said_in (words scratch.new) result ≡ judged_of Test.axioms d l (read_state d «fresh» state.now) }
{
    let m = opened::limits(deck, scratch, fresh);
    let (k, n) = load::load(deck, scratch, 0)?;
    loaded(state, store, scratch, m, k, n)
}

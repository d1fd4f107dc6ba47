// The first broken axiom of a deck in a state that is laid out, with the least breaking assignment.
// Clauses that repeat stay clauses: `LineIn` and `LineThere` are about one moment of what is lent.
#![tactic(auto)]

pub mod chains;
pub mod elements;
pub mod members;
pub mod pairs;
pub mod roles;

ghost use Rattle.std.specs.Prelude.{◌≡◌, Bool, true, not, List, [], ◌∷◌, ℕ, ◌<◌, ◌≤◌, length};
ghost use Rattle.std.proofs.Math.Option.{some};
ghost use Rattle.words.specs.Words.{words};
ghost use Rattle.rules.specs.Deck.{Known};
ghost use Rattle.rules.specs.Run.{scratch_bytes};
ghost use Rattle.rules.specs.Semantics.{Interpretation};
ghost use Rattle.ontology.specs.Layout.{axiom_at};
ghost use Rattle.states.specs.Conditions.{rises, behind, least_of, axiom_broken};
ghost use Rattle.states.specs.Masks.{mask_of};
ghost use Rattle.states.specs.Test.{axioms_verdict};
ghost use Rattle.sets.specs.Verdicts.{shown, verdict_in};
ghost use Rattle.extents.specs.Ready.{Ready, Fits, ConceptSets, SetsThere};
ghost use Rattle.axiomtests.specs.Breaking.{least_in, Aside};
ghost use Rattle.axiomtests.specs.Lines.{LineIn, LineThere, Broken, of_element, of_pair};

use chains::Chain;
use extents::Trial;
use ir::scratch::NUMBERS;
use ontology::axiom;
use pairs::First;
use sets::places::SHOWN;
use sets::verdict;

// An axiom where it stands: its kind, the deck's own number, and the `count` words from `at` on, of which the specs say what they hold
// by the same two numbers. Line, scratch and `Trial` are each by itself: scratch is written between two axioms.
#[derive(Clone, Copy)]
pub struct Line {
    pub kind: u32,
    pub at: usize,
    pub count: u32,
}

// What breaks an axiom is told by how many elements are shown; they stand in scratch from word SHOWN on.

// The least element of a set, if it has one.
fn show_one(scratch: &mut [u8], m: u64) -> Option<u32>
    requires { scratch_bytes ≤ length scratch.old }
    ensures aside { Aside (words scratch.old) (words scratch.new) }
    ensures by_index { (n : ℕ) (t : List ℕ → Bool) → n ≤ 64 → m ≡ mask_of n (λ x. not (t (x ∷ []))) → least_in (words scratch.new) result ≡ least_of (rises 0 n) 1 t }
{
    if m == 0 {
        return None;
    }
    words::put_word(scratch, SHOWN, sets::least(m) as u32);
    Some(1)
}

// An element and the least of a set that has one.
fn show_two(scratch: &mut [u8], x: u64, m: u64)
    requires { (x < 64) × (0 < m) × (scratch_bytes ≤ length scratch.old) }
    ensures aside { Aside (words scratch.old) (words scratch.new) }
    ensures by_index { (n : ℕ) (t : List ℕ → Bool) → n ≤ 64 → m ≡ mask_of n (λ y. not (t (y ∷ []))) → some (shown (words scratch.new) 2) ≡ behind x (least_of (rises 0 n) 1 t) }
{
    words::put_word(scratch, SHOWN, x as u32);
    words::put_word(scratch, SHOWN + 1, sets::least(m) as u32);
}

// ClassAssertion, which shows nothing: base + i is the class of individual i.
fn assertion(store: &[u8], scratch: &[u8], t: Trial, line: Line) -> Option<u32>
    requires { LineThere store.now scratch.now t 36 line.at line.count }
    ensures { Broken (words store.now) (words scratch.now) t 36 line.at line.count (least_in (words scratch.now) result) }
{
    let c = words::get_word(scratch, line.at + 1);
    let class = t.base as usize + words::get_word(scratch, line.at + 2) as usize;
    let named = sets::both(
        extents::set_of(scratch, c),
        sets::kept::get_set(store, class),
    );
    if named == 0 {
        return Some(0);
    }
    None
}

// SubChain, and TransitiveRole as a chain of two parts.
fn chain(scratch: &mut [u8], t: Trial, line: Line) -> Option<u32>
    requires { LineIn scratch.old t line.kind line.at line.count × (27 ≤ line.kind) × (line.kind < 29) }
    ensures aside { Aside (words scratch.old) (words scratch.new) }
    ensures by_index { (w : List ℕ) → Broken w (words scratch.old) t line.kind line.at line.count (least_in (words scratch.new) result) }
{
    let sup = words::get_word(scratch, line.at + 1);
    let size = t.size as u64;
    if line.kind == 27 {
        let c = Chain {
            size,
            sup,
            at: line.at + 2,
            step: 1,
            parts: line.count - 2,
        };
        return chains::least_path(scratch, c);
    }
    let c = Chain {
        size,
        sup,
        at: line.at + 1,
        step: 0,
        parts: 2,
    };
    chains::least_path(scratch, c)
}

fn element(store: &[u8], scratch: &mut [u8], t: Trial, line: Line) -> Option<u32>
    requires { LineThere store.now scratch.old t line.kind line.at line.count × (of_element line.kind ≡ true) }
    ensures aside { Aside (words scratch.old) (words scratch.new) }
    ensures broken { Broken (words store.now) (words scratch.old) t line.kind line.at line.count (least_in (words scratch.new) result) }
{
    let m = elements::element_mask(store, scratch, t, line);
    show_one(scratch, m)
}

fn pair(scratch: &mut [u8], t: Trial, line: Line) -> Option<u32>
    requires { LineIn scratch.old t line.kind line.at line.count × (of_pair line.kind ≡ true) }
    ensures aside { Aside (words scratch.old) (words scratch.new) }
    ensures by_index { (w : List ℕ) → Broken w (words scratch.old) t line.kind line.at line.count (least_in (words scratch.new) result) }
{
    let First { element, set } = pairs::first_pair(scratch, t, line)?;
    show_two(scratch, element, set);
    Some(2)
}

// By the kind, the deck's own number: an enum would be made by a match over the same sixteen numbers.
fn row_broken(store: &[u8], scratch: &mut [u8], t: Trial, line: Line) -> Option<u32>
    requires { LineThere store.now scratch.old t line.kind line.at line.count }
    ensures aside { Aside (words scratch.old) (words scratch.new) }
    ensures broken { Broken (words store.now) (words scratch.old) t line.kind line.at line.count (least_in (words scratch.new) result) }
{
    match line.kind {
        21..=24 | 29 | 35 => element(store, scratch, t, line),
        25 | 26 | 30..=34 => pair(scratch, t, line),
        27 | 28 => chain(scratch, t, line),
        _ => assertion(store, scratch, t, line),
    }
}

// Axiom i.
fn axiom_broken(store: &[u8], scratch: &mut [u8], t: Trial, i: u32) -> Option<u32>
    requires { SetsThere store.now scratch.old t × (i < t.axioms) }
    ensures aside { Aside (words scratch.old) (words scratch.new) }
    ensures result_after { (d : Known) (I : Interpretation) → Ready d I (words store.now) (words scratch.old) → ConceptSets d I (length d.concepts) (words scratch.old) → Fits d I t → least_in (words scratch.new) result ≡ axiom_broken I d.concepts (axiom_at (words scratch.old) i) }
{
    let line = Line {
        kind: axiom::number(scratch, i, 0),
        at: NUMBERS + axiom::start(scratch, i) as usize,
        count: axiom::count(scratch, i),
    };
    row_broken(store, scratch, t, line)
}

// The first axiom that is broken. (A loop: a closure that writes scratch would need clauses of its own for what it leaves.)
pub fn axioms_verdict(store: &[u8], scratch: &mut [u8], t: Trial) -> Result<(), verdict::Broken>
    requires { SetsThere store.now scratch.old t }
    ensures { (d : Known) (I : Interpretation) → Ready d I (words store.now) (words scratch.old) → ConceptSets d I (length d.concepts) (words scratch.old) → Fits d I t → verdict_in (words scratch.new) result ≡ axioms_verdict I d }
{
    for i in 0..t.axioms {
        if let Some(shown) = axiom_broken(store, scratch, t, i) {
            let at = t.line + i;
            return Err(verdict::Broken { at, shown });
        }
    }
    Ok(())
}

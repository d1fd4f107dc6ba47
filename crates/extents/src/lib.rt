// What a deck's concepts mean in a state that is laid out: a set for each concept line. Store and scratch are two lent buffers, each by
// itself: one is read while the other is written.
// Clauses that repeat stay clauses: `ReadyThere` is about one moment of what is lent; a type with a number's bound would be made at each
// read and opened at each use.
#![tactic(auto)]

mod joint;
pub mod restriction;

ghost use Rattle.std.specs.Prelude.{◌≡◌, Bool, not, List, ℕ, ◌+◌, ◌<◌, ◌≤◌, length};
ghost use Rattle.words.specs.Words.{words};
ghost use Rattle.rules.specs.Deck.{Known};
ghost use Rattle.rules.specs.Pool.{most_concepts};
ghost use Rattle.rules.specs.Run.{scratch_bytes};
ghost use Rattle.rules.specs.Semantics.{Interpretation};
ghost use Rattle.pool.specs.Layout.{field};
ghost use Rattle.states.specs.Masks.{mask_of};
ghost use Rattle.states.specs.Test.{store_bytes};
ghost use Rattle.sets.specs.Kept.{set_at};
ghost use Rattle.sets.specs.Places.{deck_words, concepts_at};
ghost use Rattle.sets.specs.Laid.{KeptTo, KeptIn};
ghost use Rattle.extents.specs.Ready.{Ready, Fits, ConceptSets, ReadyThere};
ghost use Rattle.extents.specs.Sets.{IsSet, ConceptThere};

use crate::restriction::{all, at_least, at_most, some};
use pool::joint::Joint;
use pool::layout::{ALL, AND, ATOMIC, BOT, MIN, NOT, SELF, SOME, TOP};
use pool::record;
use sets::kept;
use sets::places::CONCEPTS;

// A deck that stands in scratch, and the state beside it: its elements, the first individual's class, how many concepts and axioms
// there are, the first axiom's line.
#[derive(Clone, Copy)]
pub struct Trial {
    pub size: u32,
    pub base: u32,
    pub concepts: u32,
    pub axioms: u32,
    pub line: u32,
}

// The set of concept c, once it is there.
pub fn set_of(scratch: &[u8], c: u32) -> u64
    requires { (c < most_concepts) × (scratch_bytes ≤ length scratch.now) }
    ensures { result ≡ set_at (words scratch.now) (concepts_at + c) }
{
    let at = CONCEPTS + c as usize;
    kept::get_set(scratch, at)
}

// The set of individual i, by its class.
fn individual_set(store: &[u8], base: u32, i: u32) -> u64
    requires { (base + i < 8192) × (store_bytes ≤ length store.now) }
    ensures { result ≡ set_at (words store.now) (base + i) }
{
    let c = base + i;
    kept::get_set(store, c as usize)
}

// What concept c lacks.
fn complement(scratch: &[u8], c: u32, n: u32) -> u64
    requires { (c < most_concepts) × (n ≤ 64) × (scratch_bytes ≤ length scratch.now) }
    ensures { (g : ℕ → Bool) → set_at (words scratch.now) (concepts_at + c) ≡ mask_of n g → result ≡ mask_of n (λ x. not (g x)) }
{
    let set = set_of(scratch, c);
    let all = sets::whole(n as u64);
    sets::without(all, set)
}

// Top, Bot, a class or an individual.
fn leaf_set(store: &[u8], scratch: &[u8], c: u32, t: Trial) -> u64
    requires { ReadyThere store.now scratch.now t × (c < t.concepts) × (field (words scratch.now) c 0 < 5) }
    ensures { IsSet (words store.now) (words scratch.now) t c result }
{
    let kind = record::kind(scratch, c);
    let number = record::number(scratch, c);
    match kind {
        TOP => sets::whole(t.size as u64),
        BOT => 0,
        ATOMIC => kept::get_set(store, number as usize),
        _ => individual_set(store, t.base, number),
    }
}

// Self, Not, And or Or.
fn composed_set(scratch: &[u8], c: u32, t: Trial) -> u64
    requires { ConceptThere scratch.now t c × (5 ≤ field (words scratch.now) c 0) × (field (words scratch.now) c 0 < 9) }
    ensures { (w : List ℕ) → IsSet w (words scratch.now) t c result }
{
    let kind = record::kind(scratch, c);
    let role = record::role(scratch, c);
    let number = record::number(scratch, c);
    let child = record::child(scratch, c);
    match kind {
        SELF => kept::loops(scratch, role, t.size),
        NOT => complement(scratch, child, t.size),
        AND => joint::joint_set(scratch, Joint::And, child, number, t.size),
        _ => joint::joint_set(scratch, Joint::Or, child, number, t.size),
    }
}

// Some, All, Min or Max. (An arm for each test: a function of the test would ask again what `filtered` asks of it.)
fn filled_set(scratch: &[u8], c: u32, t: Trial) -> u64
    requires { ConceptThere scratch.now t c × (9 ≤ field (words scratch.now) c 0) }
    ensures { (w : List ℕ) → IsSet w (words scratch.now) t c result }
{
    let role = record::role(scratch, c);
    let limit = record::number(scratch, c);
    let child = record::child(scratch, c);
    let set = set_of(scratch, child);
    match record::kind(scratch, c) {
        SOME => sets::filtered(t.size, |x| some(kept::row(scratch, role, x), set)),
        ALL => sets::filtered(t.size, |x| all(kept::row(scratch, role, x), set)),
        MIN => sets::filtered(
            t.size,
            |x| at_least(limit, kept::row(scratch, role, x), set),
        ),
        _ => sets::filtered(t.size, |x| at_most(limit, kept::row(scratch, role, x), set)),
    }
}

// By the sets of the concepts before it. A kind is the deck's own number, which the record has as a word: an enum would cost a match
// of twelve arms before this one.
fn concept_set(store: &[u8], scratch: &[u8], c: u32, t: Trial) -> u64
    requires { ReadyThere store.now scratch.now t × (c < t.concepts) }
    ensures { IsSet (words store.now) (words scratch.now) t c result }
{
    let kind = record::kind(scratch, c);
    if kind < SELF {
        return leaf_set(store, scratch, c, t);
    }
    if kind < SOME {
        return composed_set(scratch, c, t);
    }
    filled_set(scratch, c, t)
}

// A set for each concept, in their order.
pub fn concept_sets(store: &[u8], scratch: &mut [u8], t: Trial)
    requires { ReadyThere store.now scratch.old t }
    ensures concept_sets { (d : Known) (I : Interpretation) → Ready d I (words store.now) (words scratch.old) → Fits d I t → ConceptSets d I (length d.concepts) (words scratch.new) }
    ensures kept_to { KeptTo deck_words (words scratch.old) (words scratch.new) }
    ensures kept_in { KeptIn 86016 393216 (words scratch.old) (words scratch.new) }
{
    for c in 0..t.concepts {
        let set = concept_set(store, scratch, c, t);
        kept::put_set(scratch, CONCEPTS + c as usize, set);
    }
}

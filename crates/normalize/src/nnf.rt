// to_nnf and push_negation_in: one function, which is negated for the second, and its loop over a concept's parts. `negated` and
// `memo` choose what `nnf_by` and `KnownIf` choose by the same Bool: a closure would need a name for what each of the two says. (`memo`
// was tried as a const parameter of the three: the check refuses the step that it makes itself for a call inside a generic cycle,
// `the-fit-normal_each-normal-requires`, whatever the answers.)
// Clauses that repeat stay clauses: `Normalizing` is about one moment of what is lent. A run stays its first word and its count, as in the
// definitions.
ghost use Rattle.std.specs.Prelude.{◌≡◌, true, false, ℕ, ◌<◌};
ghost use Rattle.words.specs.Words.{words};
ghost use Rattle.ir.specs.Scratch.{stack_at};
ghost use Rattle.rules.specs.Base.{each};
ghost use Rattle.rules.specs.Normalize.{to_nnf, push_negation_in, nnf_by};
ghost use Rattle.pool.specs.Layout.{run};
ghost use Rattle.pool.specs.Answers.{after, HeldAfter};
ghost use Rattle.rebuilding.specs.States.{state_of, told, after_run, HeldRun, Kept, Normalizing, NormalizingRun};
ghost use Rattle.normalize.specs.Known.{KnownIf, KnownAfter};
ghost use Rattle.ir.specs.Answer.{answer, done};

use crate::known;
use crate::known::Form;
use ir::counters::Counters;
use ir::refusal::Refusal;
use ir::scratch::STACK;
use rebuilding::{parts, rebuild};

// The normal form of concept c, or of its negation; where `memo` says so, by what is known already.
#[cycle(normal_normal_anew_normal_each)]
fn normal(
    scratch: &mut [u8],
    k: &mut Counters,
    top: usize,
    c: u32,
    negated: bool,
    memo: bool,
) -> Result<u32, Refusal>
    requires { Normalizing scratch.old k.old top c × KnownIf memo (words scratch.old) k.old.concepts }
    ensures by_index { (f : ℕ) → c < f → after (answer k.new result) (words scratch.new) ≡ told k.old (nnf_by negated f c (state_of k.old (words scratch.old))) }
    ensures held_after { HeldAfter (answer k.new result) (words scratch.new) }
    ensures kept { Kept top 0 top (words scratch.old) (words scratch.new) }
    ensures known_after { KnownAfter memo (answer k.new result) (words scratch.new) }
{
    if !memo {
        return normal_anew(scratch, k, top, c, negated, memo);
    }
    if let Some(form) = known::form_of(scratch, c, negated) {
        return known::revisit(k, form);
    }
    let before = k.visits;
    let id = normal_anew(scratch, k, top, c, negated, memo)?;
    let visits = k.visits - before;
    known::keep(scratch, c, negated, Form { id, visits });
    Ok(id)
}

// The same, by its parts.
#[cycle(normal_normal_anew_normal_each)]
fn normal_anew(
    scratch: &mut [u8],
    k: &mut Counters,
    top: usize,
    c: u32,
    negated: bool,
    memo: bool,
) -> Result<u32, Refusal>
    requires { Normalizing scratch.old k.old top c × KnownIf memo (words scratch.old) k.old.concepts }
    ensures by_index { (f : ℕ) → c < f → after (answer k.new result) (words scratch.new) ≡ told k.old (nnf_by negated f c (state_of k.old (words scratch.old))) }
    ensures held_after { HeldAfter (answer k.new result) (words scratch.new) }
    ensures kept { Kept top 0 top (words scratch.old) (words scratch.new) }
    ensures known_after { KnownAfter memo (answer k.new result) (words scratch.new) }
{
    k.visit()?;
    let n = parts::put_parts(scratch, *k, top, c, negated);
    let deeper = parts::part_negated(scratch, *k, c, negated);
    normal_each(scratch, k, top, n, top + n as usize, c, deeper, memo)?;
    rebuild::rebuild(scratch, k, top, c, n, negated)
}

// Each of the n concepts from word `at` on, all below c, becomes its normal form or that of its negation.
#[cycle(normal_normal_anew_normal_each)]
pub fn normal_each(
    scratch: &mut [u8],
    k: &mut Counters,
    at: usize,
    n: u32,
    top: usize,
    c: u32,
    negated: bool,
    memo: bool,
) -> Result<(), Refusal>
    requires { NormalizingRun scratch.old k.old at n top c × KnownIf memo (words scratch.old) k.old.concepts }
    ensures by_index { (F : ℕ → ℕ) → ((d : ℕ) → d < c → d < F d) → after_run (done k.new result) (run (words scratch.new) at n) (words scratch.new) ≡ told k.old (each (λ d. nnf_by negated (F d) d) (run (words scratch.old) at n) (state_of k.old (words scratch.old))) }
    ensures held_run { HeldRun (done k.new result) (words scratch.new) }
    ensures kept { Kept at n top (words scratch.old) (words scratch.new) }
    ensures known_after { KnownAfter memo (done k.new result) (words scratch.new) }
{
    for i in 0..n as usize {
        let d = words::get_word(scratch, at + i);
        let e = normal(scratch, k, top, d, negated, memo)?;
        words::put_word(scratch, at + i, e);
    }
    Ok(())
}

// The same, and nothing is known or kept.
pub fn normal_run(
    scratch: &mut [u8],
    k: &mut Counters,
    at: usize,
    n: u32,
    top: usize,
    c: u32,
    negated: bool,
) -> Result<(), Refusal>
    requires { NormalizingRun scratch.old k.old at n top c }
    ensures by_index { (F : ℕ → ℕ) → ((d : ℕ) → d < c → d < F d) → after_run (done k.new result) (run (words scratch.new) at n) (words scratch.new) ≡ told k.old (each (λ d. nnf_by negated (F d) d) (run (words scratch.old) at n) (state_of k.old (words scratch.old))) }
    ensures held_run { HeldRun (done k.new result) (words scratch.new) }
    ensures kept { Kept at n top (words scratch.old) (words scratch.new) }
{
    normal_each(scratch, k, at, n, top, c, negated, false)
}

// No pass calls it, since axioms go by `normal_each`: it says by the Rust's name that the code equals the rules' to_nnf.
pub fn to_nnf(scratch: &mut [u8], k: &mut Counters, c: u32) -> Result<u32, Refusal>
    requires { Normalizing scratch.old k.old stack_at c }
    ensures by_index { (f : ℕ) → c < f → after (answer k.new result) (words scratch.new) ≡ told k.old (to_nnf f c (state_of k.old (words scratch.old))) }
    ensures held_after { HeldAfter (answer k.new result) (words scratch.new) }
    ensures kept { Kept stack_at 0 stack_at (words scratch.old) (words scratch.new) }
{
    normal(scratch, k, STACK, c, false, false)
}

// nnf_complement calls it, with no visit of its own.
pub fn push_negation_in(scratch: &mut [u8], k: &mut Counters, c: u32) -> Result<u32, Refusal>
    requires { Normalizing scratch.old k.old stack_at c }
    ensures by_index { (f : ℕ) → c < f → after (answer k.new result) (words scratch.new) ≡ told k.old (push_negation_in f c (state_of k.old (words scratch.old))) }
    ensures held_after { HeldAfter (answer k.new result) (words scratch.new) }
    ensures kept { Kept stack_at 0 stack_at (words scratch.old) (words scratch.new) }
{
    normal(scratch, k, STACK, c, true, false)
}

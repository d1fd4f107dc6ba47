// The conjuncts of a hard antecedent, and the concepts that are made of them.
// The bound of a number that is read from a word stays a clause: a type with it would be made at each read, to be taken apart again.
// `sub` and `sup` stay two numbers: the Rust's own two names, and absorb changes the one and keeps the other.
// Clauses that repeat stay clauses: each function asks for the length that it reads; `Good` and `Reading` are about one moment of what is
// lent.
ghost use Rattle.std.specs.Prelude.{◌≡◌, [], ◌+◌, ◌≤◌, ◌<◌, length, take};
ghost use Rattle.words.specs.Words.{words};
ghost use Rattle.ir.specs.Scratch.{stack_at};
ghost use Rattle.rules.specs.Pool.{at, members, most_concepts, most_members};
ghost use Rattle.rules.specs.State.{Env, Out};
ghost use Rattle.rules.specs.Axioms.{conjuncts, partition};
ghost use Rattle.rules.specs.Invariants.{Each};
ghost use Rattle.pool.specs.Layout.{pool_bytes, pool_of, run};
ghost use Rattle.tables.specs.Good.{Good};
ghost use Rattle.leaves.specs.Reading.{Reading};
ghost use Rattle.antecedents.specs.States.{Counted};
ghost use Rattle.inclusions.specs.Conjuncts.{count_in, conjunct_in, MemberIn};
ghost use Rattle.inclusions.specs.Parts.{parts};
ghost use Rattle.inclusions.specs.Parted.{soft_at, hard_at, in_parts_bytes, head_alone, head_over, soft_and_of, parted_after, parted_of, PartsIn, Normalised};
ghost use Rattle.ir.specs.Answer.{answer};

use ir::counters::Counters;
use ir::refusal::Refusal;
use ir::scratch::{HANDS, MARKS, STACK};
use normalize::nnf;
use pool::layout::AND;
use pool::{joint, record};

// The soft conjuncts stand where atoms in hand will, the hard ones on the stack.
const SOFT: usize = HANDS;

const HARD: usize = STACK;

// How many soft and hard conjuncts there are.
#[derive(Clone, Copy)]
pub struct Parts {
    pub soft: u32,
    pub hard: u32,
}

// How many top-level conjuncts concept c has.
fn conjunct_count(scratch: &[u8], c: u32) -> u32
    requires { (c < most_concepts) × (pool_bytes ≤ length scratch.now) }
    ensures { result ≡ count_in (words scratch.now) c }
{
    if record::kind(scratch, c) == AND {
        return record::number(scratch, c);
    }
    1
}

// Conjunct i of concept c.
fn conjunct(scratch: &[u8], c: u32, i: u32) -> u32
    requires { (c < most_concepts) × (pool_bytes ≤ length scratch.now) × MemberIn (words scratch.now) c i }
    ensures { result ≡ conjunct_in (words scratch.now) c i }
{
    if record::kind(scratch, c) == AND {
        return record::member(scratch, record::child(scratch, c) + i);
    }
    c
}

// Each conjunct of c is encoded; those that have no alternatives are hard.
pub fn partition(scratch: &mut [u8], k: &mut Counters, c: u32) -> Result<Parts, Refusal>
    requires { Reading scratch.old k.old × Good k.old × (c < k.old.concepts) × (in_parts_bytes ≤ length scratch.old) }
    ensures scratch_after { (env : Env) (s : Out) → Counted k.old s → parted_after (parts k.new result) (words scratch.new) ≡ parted_of k.old (partition env (pool_of (words scratch.old) k.old.concepts) (conjuncts c (at (pool_of (words scratch.old) k.old.concepts) c)) [] [] s) }
    ensures parts_in { PartsIn k.old c (words scratch.old) (words scratch.new) (parts k.new result) }
    ensures scratch_unchanged { take stack_at (words scratch.new) ≡ take stack_at (words scratch.old) }
{
    let mut soft: u32 = 0;
    let mut hard: u32 = 0;
    for i in 0..conjunct_count(scratch, c) {
        let p = conjunct(scratch, c, i);
        k.restart_vars();
        match antecedents::encode_antecedent(scratch, k, p)? {
            Some(_) => {
                words::put_word(scratch, SOFT + soft as usize, p);
                soft += 1;
            }
            None => {
                words::put_word(scratch, HARD + hard as usize, p);
                hard += 1;
            }
        }
    }
    Ok(Parts { soft, hard })
}

// The negation of sub, or sup.
pub fn head_alone(scratch: &mut [u8], k: &mut Counters, sub: u32, sup: u32) -> Result<u32, Refusal>
    requires { Reading scratch.old k.old × Good k.old × (sub < k.old.concepts) × (sup < k.old.concepts) × (in_parts_bytes ≤ length scratch.old) }
    ensures { Normalised (head_alone sub sup) k.old scratch.old scratch.new (answer k.new result) }
{
    let negated = nnf::push_negation_in(scratch, k, sub)?;
    words::put_word(scratch, HARD, negated);
    words::put_word(scratch, HARD + 1, sup);
    joint::mk_or(scratch, k, MARKS, HARD, 2)
}

// The negations of the hard conjuncts of sub, or sup.
pub fn head_over(
    scratch: &mut [u8],
    k: &mut Counters,
    hard: u32,
    sub: u32,
    sup: u32,
) -> Result<u32, Refusal>
    requires { Reading scratch.old k.old × Good k.old × (sub < k.old.concepts) × (sup < k.old.concepts) × (in_parts_bytes ≤ length scratch.old) × Each (λ d. d < sub) (run (words scratch.old) hard_at hard) × (hard + members (pool_of (words scratch.old) sub) ≤ most_members) }
    ensures { Normalised (head_over (run (words scratch.old) hard_at hard) sup) k.old scratch.old scratch.new (answer k.new result) }
{
    nnf::normal_run(scratch, k, HARD, hard, HARD + hard as usize, sub, true)?;
    words::put_word(scratch, HARD + hard as usize, sup);
    joint::mk_or(scratch, k, MARKS, HARD, hard + 1)
}

// The conjunction of the soft conjuncts.
pub fn soft_and(scratch: &mut [u8], k: &mut Counters, soft: u32) -> Result<u32, Refusal>
    requires { Reading scratch.old k.old × Good k.old × (soft ≤ most_members) × (in_parts_bytes ≤ length scratch.old) × Each (λ d. d < k.old.concepts) (run (words scratch.old) soft_at soft) }
    ensures { Normalised (soft_and_of (run (words scratch.old) soft_at soft)) k.old scratch.old scratch.new (answer k.new result) }
{
    if soft == 1 {
        return Ok(words::get_word(scratch, SOFT));
    }
    joint::mk_and(scratch, k, MARKS, SOFT, soft)
}

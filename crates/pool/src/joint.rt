// And and Or, of operands flattened, sorted and without repeats.
// The marks' space, the operands' first word and their count stay three numbers, as in the definitions' `Operands`: a struct of them
// would be made anew at each call.
// Clauses that repeat stay clauses: each function asks for the length that it reads; `Ready` is about one moment of what is lent.
// `interned` and `scratch_unchanged` stay two clauses: each caller cites them by their names.
ghost use Rattle.std.specs.Prelude.{◌≡◌, false, ◌+◌, ◌*◌, ◌≤◌, ◌<◌, length, drop};
ghost use Rattle.words.specs.Words.{words};
ghost use Rattle.rules.specs.Pool.{intern_raw, any_annihilates, collapsed, mk_and, mk_or};
ghost use Rattle.rules.specs.Invariants.{Each};
ghost use Rattle.rules.specs.JointLaws.{list_of, mk_joint};
ghost use Rattle.pool.specs.Layout.{pool_words, run, pool_of};
ghost use Rattle.pool.specs.Held.{Ready};
ghost use Rattle.pool.specs.Answers.{Interned};
ghost use Rattle.pool.specs.Joints.{joint_of, list_kind, identity_kind, annihilator_kind, identity_of, annihilator_of, operand_in};
ghost use Rattle.pool.specs.Marks.{Beside, Operands};
ghost use Rattle.ir.specs.Answer.{answer};

use crate::layout::{AND, BOT, MARK_WORDS, OR, TOP};
use crate::place::Way;
use crate::record::Record;
use crate::{intern, make, marks, place};
use ir::counters::Counters;
use ir::refusal::Refusal;

// And and Or.
#[derive(Clone, Copy)]
pub enum Joint {
    And,
    Or,
}

impl Joint {
    // The kind of its lists.
    pub fn kind(self) -> u32
        ensures { result ≡ list_kind (joint_of self) }
    {
        match self {
            Joint::And => AND,
            Joint::Or => OR,
        }
    }

    // The kind of its identity: Top, Bot.
    pub fn identity(self) -> u32
        ensures { result ≡ identity_kind (joint_of self) }
    {
        match self {
            Joint::And => TOP,
            Joint::Or => BOT,
        }
    }

    // The kind that annihilates it: Bot, Top.
    pub fn annihilator(self) -> u32
        ensures { result ≡ annihilator_kind (joint_of self) }
    {
        match self {
            Joint::And => BOT,
            Joint::Or => TOP,
        }
    }
}

// The list of the `count` words from `at` on.
pub fn intern_list(
    scratch: &mut [u8],
    k: &mut Counters,
    joint: Joint,
    at: usize,
    count: u32,
) -> Result<u32, Refusal>
    requires { Ready scratch.old k.old × (4 * (at + count) ≤ length scratch.old) × Each (λ d. d < k.old.concepts) (run (words scratch.old) at count) }
    ensures interned { Interned k.old (intern_raw (list_of (joint_of joint) (run (words scratch.old) at count))) (words scratch.old) (words scratch.new) (answer k.new result) }
    ensures scratch_unchanged { drop pool_words (words scratch.new) ≡ drop pool_words (words scratch.old) }
{
    let x = Record::new(joint.kind(), 0, count, 0);
    intern::intern(scratch, k, x, at)
}

// The list of the words from `at` on: of none the identity, of one that one.
fn collapse(
    scratch: &mut [u8],
    k: &mut Counters,
    joint: Joint,
    at: usize,
    count: u32,
) -> Result<u32, Refusal>
    requires { Ready scratch.old k.old × (4 * (at + count) ≤ length scratch.old) × Each (λ d. d < k.old.concepts) (run (words scratch.old) at count) }
    ensures interned { Interned k.old (collapsed (identity_of (joint_of joint)) (list_of (joint_of joint)) (run (words scratch.old) at count)) (words scratch.old) (words scratch.new) (answer k.new result) }
    ensures scratch_unchanged { drop pool_words (words scratch.new) ≡ drop pool_words (words scratch.old) }
{
    match count {
        0 => make::intern_bare(scratch, k, joint.identity()),
        1 => Ok(words::get_word(scratch, at)),
        _ => intern_list(scratch, k, joint, at, count),
    }
}

// The annihilator.
fn annihilate(scratch: &mut [u8], k: &mut Counters, joint: Joint) -> Result<u32, Refusal>
    requires { Ready scratch.old k.old }
    ensures interned { Interned k.old (intern_raw (annihilator_of (joint_of joint))) (words scratch.old) (words scratch.new) (answer k.new result) }
    ensures scratch_unchanged { drop pool_words (words scratch.new) ≡ drop pool_words (words scratch.old) }
{
    make::intern_bare(scratch, k, joint.annihilator())
}

// A long list, sorted by marks.
fn mk_long(
    scratch: &mut [u8],
    k: &mut Counters,
    joint: Joint,
    marks: usize,
    at: usize,
    count: u32,
) -> Result<u32, Refusal>
    requires { Operands scratch.old k.old marks at count }
    ensures interned { Interned k.old (mk_joint (joint_of joint) (run (words scratch.old) at count)) (words scratch.old) (words scratch.new) (answer k.new result) }
    ensures beside { Beside marks (words scratch.old) (words scratch.new) }
{
    let n = k.concepts;
    words::clear_words(scratch, marks, n as usize);
    if marks::mark_all(scratch, *k, joint, marks, at, count) {
        return annihilate(scratch, k, joint);
    }
    let m = marks::gather(scratch, marks, n);
    collapse(scratch, k, joint, marks, m)
}

// A short list of which none annihilates, sorted by insertion.
fn mk_short(
    scratch: &mut [u8],
    k: &mut Counters,
    joint: Joint,
    marks: usize,
    at: usize,
    count: u32,
) -> Result<u32, Refusal>
    requires operands { Operands scratch.old k.old marks at count }
    requires count_value { any_annihilates (operand_in (joint_of joint) (pool_of (words scratch.old) k.old.concepts)) (run (words scratch.old) at count) ≡ false }
    ensures interned { Interned k.old (mk_joint (joint_of joint) (run (words scratch.old) at count)) (words scratch.old) (words scratch.new) (answer k.new result) }
    ensures beside { Beside marks (words scratch.old) (words scratch.new) }
{
    let first = place::place_all(scratch, *k, joint, marks, at, count);
    let m = marks + MARK_WORDS - first;
    collapse(scratch, k, joint, first, m as u32)
}

// Over the operands from word `at` on, with space for marks below them and above the pool.
fn mk_joint(
    scratch: &mut [u8],
    k: &mut Counters,
    joint: Joint,
    marks: usize,
    at: usize,
    count: u32,
) -> Result<u32, Refusal>
    requires { Operands scratch.old k.old marks at count }
    ensures interned { Interned k.old (mk_joint (joint_of joint) (run (words scratch.old) at count)) (words scratch.old) (words scratch.new) (answer k.new result) }
    ensures beside { Beside marks (words scratch.old) (words scratch.new) }
{
    match place::survey(scratch, *k, joint, marks, at, count) {
        Way::Annihilated => annihilate(scratch, k, joint),
        Way::Short => mk_short(scratch, k, joint, marks, at, count),
        Way::Long => mk_long(scratch, k, joint, marks, at, count),
    }
}

// The Rust's two names of mk_joint.
pub fn mk_and(
    scratch: &mut [u8],
    k: &mut Counters,
    marks: usize,
    at: usize,
    count: u32,
) -> Result<u32, Refusal>
    requires { Operands scratch.old k.old marks at count }
    ensures interned { Interned k.old (mk_and (run (words scratch.old) at count)) (words scratch.old) (words scratch.new) (answer k.new result) }
    ensures beside { Beside marks (words scratch.old) (words scratch.new) }
{
    mk_joint(scratch, k, Joint::And, marks, at, count)
}

pub fn mk_or(
    scratch: &mut [u8],
    k: &mut Counters,
    marks: usize,
    at: usize,
    count: u32,
) -> Result<u32, Refusal>
    requires { Operands scratch.old k.old marks at count }
    ensures interned { Interned k.old (mk_or (run (words scratch.old) at count)) (words scratch.old) (words scratch.new) (answer k.new result) }
    ensures beside { Beside marks (words scratch.old) (words scratch.new) }
{
    mk_joint(scratch, k, Joint::Or, marks, at, count)
}

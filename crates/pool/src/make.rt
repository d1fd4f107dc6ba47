// The constructors: a concept is interned as it is, but Min 0 is Top.
// Clauses that repeat stay clauses: `Ready` is about one moment of what is lent; a type with a number's bound would be made at each read
// and opened at each use.
// `interned` and `scratch_unchanged` stay two clauses: each caller cites them by their names.
ghost use Rattle.std.specs.Prelude.{◌≡◌, false, [], ◌≤◌, ◌<◌, drop};
ghost use Rattle.words.specs.Words.{words};
ghost use Rattle.ir.specs.Roles.{role_of};
ghost use Rattle.rules.specs.Concept.{Atomic};
ghost use Rattle.rules.specs.Pool.{intern_raw, mk_top, mk_bot, mk_not, mk_some, mk_all, mk_min, mk_max};
ghost use Rattle.rules.specs.Deck.{parts_of};
ghost use Rattle.rules.specs.Invariants.{Each};
ghost use Rattle.pool.specs.Layout.{pool_words, record_words, is_list, concept_from, plain};
ghost use Rattle.pool.specs.Held.{Ready};
ghost use Rattle.pool.specs.Answers.{Interned};
ghost use Rattle.ir.specs.Answer.{answer};

use crate::intern;
use crate::layout::{ALL, ATOMIC, BOT, MAX, MIN, NOT, SOME, TOP};
use crate::record::Record;
use ir::counters::Counters;
use ir::refusal::Refusal;

// A concept without a list.
pub fn intern_raw(scratch: &mut [u8], k: &mut Counters, x: Record) -> Result<u32, Refusal>
    requires { Ready scratch.old k.old × (is_list x.kind ≡ false) × (plain (concept_from x []) ≡ x) × Each (λ d. d < k.old.concepts) (parts_of (concept_from x [])) }
    ensures interned { Interned k.old (intern_raw (concept_from x [])) (words scratch.old) (words scratch.new) (answer k.new result) }
    ensures scratch_unchanged { drop pool_words (words scratch.new) ≡ drop pool_words (words scratch.old) }
{
    intern::intern(scratch, k, x, 0)
}

// A concept of its kind alone: Top or Bot.
pub(crate) fn intern_bare(scratch: &mut [u8], k: &mut Counters, kind: u32) -> Result<u32, Refusal>
    requires { Ready scratch.old k.old × (1 ≤ kind) × (kind < 3) }
    ensures interned { Interned k.old (intern_raw (concept_from (record_words kind 0 0 0) [])) (words scratch.old) (words scratch.new) (answer k.new result) }
    ensures scratch_unchanged { drop pool_words (words scratch.new) ≡ drop pool_words (words scratch.old) }
{
    intern_raw(scratch, k, Record::new(kind, 0, 0, 0))
}

// mk_top and mk_bot, mk_some and mk_all, mk_max and mk_min are two each: the Rust's own names.
pub fn mk_top(scratch: &mut [u8], k: &mut Counters) -> Result<u32, Refusal>
    requires { Ready scratch.old k.old }
    ensures interned { Interned k.old mk_top (words scratch.old) (words scratch.new) (answer k.new result) }
    ensures scratch_unchanged { drop pool_words (words scratch.new) ≡ drop pool_words (words scratch.old) }
{
    intern_bare(scratch, k, TOP)
}

pub fn mk_bot(scratch: &mut [u8], k: &mut Counters) -> Result<u32, Refusal>
    requires { Ready scratch.old k.old }
    ensures interned { Interned k.old mk_bot (words scratch.old) (words scratch.new) (answer k.new result) }
    ensures scratch_unchanged { drop pool_words (words scratch.new) ≡ drop pool_words (words scratch.old) }
{
    intern_bare(scratch, k, BOT)
}

pub fn mk_atomic(scratch: &mut [u8], k: &mut Counters, class: u32) -> Result<u32, Refusal>
    requires { Ready scratch.old k.old }
    ensures interned { Interned k.old (intern_raw (Atomic class)) (words scratch.old) (words scratch.new) (answer k.new result) }
    ensures scratch_unchanged { drop pool_words (words scratch.new) ≡ drop pool_words (words scratch.old) }
{
    intern_raw(scratch, k, Record::new(ATOMIC, 0, class, 0))
}

pub fn mk_not(scratch: &mut [u8], k: &mut Counters, c: u32) -> Result<u32, Refusal>
    requires { Ready scratch.old k.old × (c < k.old.concepts) }
    ensures interned { Interned k.old (mk_not c) (words scratch.old) (words scratch.new) (answer k.new result) }
    ensures scratch_unchanged { drop pool_words (words scratch.new) ≡ drop pool_words (words scratch.old) }
{
    intern_raw(scratch, k, Record::new(NOT, 0, 0, c))
}

pub fn mk_some(scratch: &mut [u8], k: &mut Counters, role: u32, c: u32) -> Result<u32, Refusal>
    requires { Ready scratch.old k.old × (c < k.old.concepts) }
    ensures interned { Interned k.old (mk_some (role_of role) c) (words scratch.old) (words scratch.new) (answer k.new result) }
    ensures scratch_unchanged { drop pool_words (words scratch.new) ≡ drop pool_words (words scratch.old) }
{
    intern_raw(scratch, k, Record::new(SOME, role, 0, c))
}

pub fn mk_all(scratch: &mut [u8], k: &mut Counters, role: u32, c: u32) -> Result<u32, Refusal>
    requires { Ready scratch.old k.old × (c < k.old.concepts) }
    ensures interned { Interned k.old (mk_all (role_of role) c) (words scratch.old) (words scratch.new) (answer k.new result) }
    ensures scratch_unchanged { drop pool_words (words scratch.new) ≡ drop pool_words (words scratch.old) }
{
    intern_raw(scratch, k, Record::new(ALL, role, 0, c))
}

pub fn mk_max(
    scratch: &mut [u8],
    k: &mut Counters,
    n: u32,
    role: u32,
    c: u32,
) -> Result<u32, Refusal>
    requires { Ready scratch.old k.old × (c < k.old.concepts) }
    ensures interned { Interned k.old (mk_max n (role_of role) c) (words scratch.old) (words scratch.new) (answer k.new result) }
    ensures scratch_unchanged { drop pool_words (words scratch.new) ≡ drop pool_words (words scratch.old) }
{
    intern_raw(scratch, k, Record::new(MAX, role, n, c))
}

pub fn mk_min(
    scratch: &mut [u8],
    k: &mut Counters,
    n: u32,
    role: u32,
    c: u32,
) -> Result<u32, Refusal>
    requires { Ready scratch.old k.old × (c < k.old.concepts) }
    ensures interned { Interned k.old (mk_min n (role_of role) c) (words scratch.old) (words scratch.new) (answer k.new result) }
    ensures scratch_unchanged { drop pool_words (words scratch.new) ≡ drop pool_words (words scratch.old) }
{
    if n == 0 {
        return mk_top(scratch, k);
    }
    intern_raw(scratch, k, Record::new(MIN, role, n, c))
}

// What a concept of the pool is: Top, a class, a role in its canonical form.
// The bound of a number that is read from a word stays a clause: a type with it would be made at each read, to be taken apart again.
// Clauses that repeat stay clauses: `Reading` is about one moment of what is lent.
ghost use Rattle.std.specs.Prelude.{◌≡◌, ◌+◌, ◌<◌, ◌^◌, IfSome};
ghost use Rattle.std.proofs.Math.Option.{some};
ghost use Rattle.words.specs.Words.{words};
ghost use Rattle.ir.specs.Roles.{role_of, role_id};
ghost use Rattle.rules.specs.State.{Env, canon, class_id_of, is_dkey};
ghost use Rattle.rules.specs.Heads.{is_top};
ghost use Rattle.pool.specs.Layout.{field, concept_at};
ghost use Rattle.hands.specs.Hands.{EnvIn};
ghost use Rattle.leaves.specs.Reading.{Reading};
ghost use Rattle.tables.specs.Good.{most_names};
ghost use Rattle.leaves.specs.Classes.{option_in, HasRole, at_least_none};

use ir::counters::Counters;
use ir::role::Role;
use pool::layout::{ATOMIC, MIN, NOMINAL, TOP};
use pool::record;

pub fn is_top(scratch: &[u8], k: Counters, c: u32) -> bool
    requires { Reading scratch.now k × (c < k.concepts) }
    ensures { result ≡ is_top (concept_at (words scratch.now) c) }
{
    record::kind(scratch, c) == TOP
}

// Whether concept c is Min 0.
pub fn at_least_none(scratch: &[u8], k: Counters, c: u32) -> bool
    requires { Reading scratch.now k × (c < k.concepts) }
    ensures { result ≡ at_least_none (concept_at (words scratch.now) c) }
{
    record::kind(scratch, c) == MIN && record::number(scratch, c) == 0
}

pub fn class_id_of(scratch: &[u8], k: Counters, c: u32) -> Option<u32>
    requires { Reading scratch.now k × (c < k.concepts) }
    ensures result_value { (env : Env) → EnvIn env k (words scratch.now) → option_in result ≡ class_id_of env (concept_at (words scratch.now) c) }
    ensures small_class { IfSome result (λ a. a < most_names) }
{
    // By the record's number, as pool's concept_at goes: read as an enum, a word that is none of the twelve would need an arm of its own
    // here.
    match record::kind(scratch, c) {
        ATOMIC => Some(record::number(scratch, c)),
        NOMINAL => Some(k.nominal_base + record::number(scratch, c)),
        _ => None,
    }
}

// Whether class a is a data key; ids above the declared classes are none.
pub fn is_dkey(scratch: &[u8], k: Counters, a: u32) -> bool
    requires { Reading scratch.now k }
    ensures { (env : Env) → EnvIn env k (words scratch.now) → result ≡ is_dkey env (some a) }
{
    a < 4096 && ontology::key::is_key(scratch, a)
}

// The canonical form of the role of concept c, which has one.
pub fn canon(scratch: &[u8], k: Counters, c: u32) -> Role
    requires { Reading scratch.now k × (c < k.concepts) × HasRole (concept_at (words scratch.now) c) }
    ensures value { (env : Env) → EnvIn env k (words scratch.now) → result ≡ canon env (role_of (field (words scratch.now) c 1)) }
    ensures result_bound { role_id result < 2 ^ 31 }
{
    inverse::canon_role(scratch, record::role(scratch, c))
}

// The head of a restriction whose filler is named.
// Atoms in hand are told by their first record and their number, two numbers, as `Did` has them.
// What never defers has two of the tables and the counters: with all of them it would say again what it leaves alone.
// The bound of a number that is read from a word stays a clause: a type with it would be made at each read, to be taken apart again.
// A concept and a variable stay two numbers, as the rules have them.
// Clauses that repeat stay clauses: each function asks for the length that it reads; `Good`, `Reading` and `Restricts` are about one
// moment of what is lent.
ghost use Rattle.std.specs.Prelude.{◌≡◌, List, ℕ, ◌+◌, ◌*◌, ◌<◌, ◌≤◌, ◌^◌, length};
ghost use Rattle.words.specs.Words.{words};
ghost use Rattle.ir.specs.Answer.{done};
ghost use Rattle.rules.specs.State.{Env};
ghost use Rattle.pool.specs.Layout.{concept_at, pool_of};
ghost use Rattle.tables.specs.Drawn.{Sized};
ghost use Rattle.tables.specs.Good.{Good};
ghost use Rattle.hands.specs.Hands.{EnvIn, Did, four};
ghost use Rattle.leaves.specs.Leaves.{emit_named, drops_head};
ghost use Rattle.leaves.specs.Classes.{Restricts};
ghost use Rattle.leaves.specs.Reading.{Reading};

use crate::{disjunct, read};
use ir::counters::Counters;
use ir::refusal::Refusal;
use pool::layout::SOME;
use pool::record as concept;

// The head of restriction c over the class q: none over a data key of Min and Max.
pub fn emit_named(
    clauses: &mut [u8],
    atoms: &mut [u8],
    k: &mut Counters,
    scratch: &[u8],
    base: usize,
    n: u32,
    c: u32,
    v: u32,
    q: u32,
) -> Result<(), Refusal>
    requires { Reading scratch.now k.old × (c < k.old.concepts) × Restricts (concept_at (words scratch.now) c) × Good k.old × (q + 1 < 2 ^ 32) × (n ≤ 256) × (24 * (base + n + 1) ≤ length scratch.now) × Sized (length clauses.old) (length atoms.old) 0 }
    ensures { let w = words scratch.now in
        let old = four w (words clauses.old) (words atoms.old) in
        let new = four w (words clauses.new) (words atoms.new) in
        ((d : List ℕ) → Did (λ _. 0) 0 (λ env f b s. emit_named env (pool_of w k.old.concepts) v (concept_at w c) b q s) k.old base n (old d) (new d) (done k.new result)) }
{
    if drops_head(scratch, *k, c, q) {
        return Ok(());
    }
    let head = disjunct::filler_atom(scratch, *k, c, v, q);
    hands::push_one(clauses, atoms, k, scratch, base, n, head)
}

// Whether the head of restriction c over class q is dropped: Min and Max over a data key.
fn drops_head(scratch: &[u8], k: Counters, c: u32, q: u32) -> bool
    requires { Reading scratch.now k × (c < k.concepts) × Restricts (concept_at (words scratch.now) c) }
    ensures { (env : Env) → EnvIn env k (words scratch.now) → result ≡ drops_head env (pool_of (words scratch.now) k.concepts) (concept_at (words scratch.now) c) q }
{
    concept::kind(scratch, c) != SOME && read::is_dkey(scratch, k, q)
}

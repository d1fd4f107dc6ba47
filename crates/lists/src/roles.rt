// DisjointObjectProperties: all pairs of a role and a later one that differs from it.
// A run in scratch is its first word and its count, two numbers, as the definitions' `run` has it.
// What never defers has two of the tables and the counters: with all of them it would say again what it leaves alone.
// Clauses that repeat stay clauses: `Clausifying` is about one moment of what is lent; a type with a number's bound would be made at each
// read and opened at each use.
ghost use Rattle.std.specs.Prelude.{◌≡◌, List, [], map, ℕ, ◌+◌, ◌-◌, ◌<◌, length, get_or};
ghost use Rattle.words.specs.Words.{words};
ghost use Rattle.rules.specs.Base.{for_each};
ghost use Rattle.ir.specs.Roles.{role_of};
ghost use Rattle.rules.specs.Axioms.{paired, later_pairs};
ghost use Rattle.pool.specs.Layout.{run};
ghost use Rattle.hands.specs.Hands.{four};
ghost use Rattle.axioms.specs.Wholes.{Clausifying, ClausifyingAfter, Clausified};
ghost use Rattle.lists.specs.Listed.{RolesListed, pair_disjoint};
ghost use Rattle.ir.specs.Answer.{done};
ghost use Rattle.tables.specs.Drawn.{Sized};

use axioms::roles;
use ir::counters::Counters;
use ir::refusal::Refusal;

// Role i of the list with each later one.
fn disjoint_roles_with(
    clauses: &mut [u8],
    atoms: &mut [u8],
    k: &mut Counters,
    scratch: &mut [u8],
    at: usize,
    count: u32,
    i: u32,
) -> Result<(), Refusal>
    requires { Clausifying scratch.old k.old × RolesListed (words scratch.old) at count × (i < count) × Sized (length clauses.old) (length atoms.old) 0 }
    ensures fact { let w = words scratch.old in
        let old = four w (words clauses.old) (words atoms.old) in
        let new = four (words scratch.new) (words clauses.new) (words atoms.new) in
        ((d : List ℕ) → Clausified (λ env. for_each (pair_disjoint env) (paired (role_of (get_or w (at + i) 0)) (map role_of (run w (at + i + 1) (count - (i + 1)))) [])) k.old (old d) (new d) (done k.new result)) }
    ensures clausifying_after { ClausifyingAfter scratch.new (done k.new result) }
{
    let r = words::get_word(scratch, at + i as usize);
    for j in i + 1..count {
        let s = words::get_word(scratch, at + j as usize);
        if r != s {
            roles::not_both(clauses, atoms, k, scratch, r, s, false)?;
        }
    }
    Ok(())
}

// Of the `count` role codes from `at` on.
pub fn disjoint_roles(
    clauses: &mut [u8],
    atoms: &mut [u8],
    k: &mut Counters,
    scratch: &mut [u8],
    at: usize,
    count: u32,
) -> Result<(), Refusal>
    requires { Clausifying scratch.old k.old × RolesListed (words scratch.old) at count × Sized (length clauses.old) (length atoms.old) 0 }
    ensures fact { let w = words scratch.old in
        let old = four w (words clauses.old) (words atoms.old) in
        let new = four (words scratch.new) (words clauses.new) (words atoms.new) in
        ((d : List ℕ) → Clausified (λ env. for_each (pair_disjoint env) (later_pairs (map role_of (run w at count)))) k.old (old d) (new d) (done k.new result)) }
    ensures clausifying_after { ClausifyingAfter scratch.new (done k.new result) }
{
    for i in 0..count {
        disjoint_roles_with(clauses, atoms, k, scratch, at, count, i)?;
    }
    Ok(())
}

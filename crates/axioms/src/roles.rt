// The axioms over roles alone.
// What never defers has two of the tables and the counters: with all of them it would say again what it leaves alone.
// The bound of a number that is read from a word stays a clause: a type with it would be made at each read, to be taken apart again.
// Clauses that repeat stay clauses: each function asks for the length that it reads; `Good` is about one moment of what is lent.
ghost use Rattle.std.specs.Prelude.{◌≡◌, List, ℕ, ◌*◌, ◌<◌, ◌≤◌, ◌^◌, length};
ghost use Rattle.words.specs.Words.{words};
ghost use Rattle.ir.specs.Roles.{role_of, role_id};
ghost use Rattle.rules.specs.Deck.{most_roles};
ghost use Rattle.rules.specs.State.{Env, canon};
ghost use Rattle.rules.specs.Axioms.{chain};
ghost use Rattle.pool.specs.Layout.{pool_of};
ghost use Rattle.tables.specs.Drawn.{Sized};
ghost use Rattle.tables.specs.Good.{Good};
ghost use Rattle.hands.specs.Hands.{EnvIn, four, Did};
ghost use Rattle.ir.specs.Records.{Fits};
ghost use Rattle.axioms.specs.RoleAxioms.{hand_at, in_hand_bytes, irreflexive, second_atom, not_both};
ghost use Rattle.ir.specs.Answer.{done};

use hands::HAND;
use ir::atom::Atom;
use ir::counters::Counters;
use ir::record;
use ir::refusal::Refusal;
use ir::role::Role;

// The canonical form of a role's code. Beside canon_role, whose one call it is: it says so in the rules' `canon` of an environment, for all
// the calls of this crate.
pub fn canon(scratch: &[u8], code: u32) -> Role
    requires { (code < 2 * most_roles) × (in_hand_bytes ≤ length scratch.now) }
    ensures value { (env : Env) (k : Counters) → EnvIn env k (words scratch.now) → result ≡ canon env (role_of code) }
    ensures result_bound { role_id result < 2 ^ 31 }
{
    inverse::canon_role(scratch, code)
}

// r(X, y) and s(y, z) give t(X, z).
pub fn chain(
    clauses: &mut [u8],
    atoms: &mut [u8],
    k: &mut Counters,
    scratch: &mut [u8],
    r: u32,
    s: u32,
    t: u32,
) -> Result<(), Refusal>
    requires { (r < 2 * most_roles) × (s < 2 * most_roles) × (t < 2 * most_roles) × (in_hand_bytes ≤ length scratch.old) × Good k.old × Sized (length clauses.old) (length atoms.old) 0 }
    ensures { let w = words scratch.old in
        let old = four w (words clauses.old) (words atoms.old) in
        let new = four (words scratch.new) (words clauses.new) (words atoms.new) in
        ((d : List ℕ) → Did (λ _. 0) 0 (λ env f b u. chain env (role_of r) (role_of s) (role_of t) (pool_of w k.old.concepts) u) k.old hand_at 0 (old d) (new d) (done k.new result)) }
{
    k.restart_vars();
    let y = k.fresh_var();
    let z = k.fresh_var();
    let a = Atom::Role(canon(scratch, r), 0, y);
    let b = Atom::Role(canon(scratch, s), y, z);
    let c = Atom::Role(canon(scratch, t), 0, z);
    record::put_atom(scratch, HAND, a);
    record::put_atom(scratch, HAND + 1, b);
    record::put_atom(scratch, HAND + 2, c);
    hands::push_run(clauses, atoms, k, scratch, HAND, 2, 1)
}

// No X has itself for r.
pub fn irreflexive(
    clauses: &mut [u8],
    atoms: &mut [u8],
    k: &mut Counters,
    scratch: &mut [u8],
    r: u32,
) -> Result<(), Refusal>
    requires { (r < 2 * most_roles) × (in_hand_bytes ≤ length scratch.old) × Good k.old × Sized (length clauses.old) (length atoms.old) 0 }
    ensures { let old = four (words scratch.old) (words clauses.old) (words atoms.old) in
        let new = four (words scratch.new) (words clauses.new) (words atoms.new) in
        ((d : List ℕ) → Did (λ _. 0) 0 (λ env f b u. irreflexive env (role_of r) u) k.old hand_at 0 (old d) (new d) (done k.new result)) }
{
    let a = Atom::Role(canon(scratch, r), 0, 0);
    record::put_atom(scratch, HAND, a);
    hands::push_none(clauses, atoms, k, scratch, HAND, 1)
}

// The atom s(y, X), or s(X, y): `back` is the rule's own Bool.
fn second(role: Role, y: u32, back: bool) -> Atom
    requires { role_id role < 2 ^ 31 }
    ensures value { result ≡ second_atom role y back }
    ensures fits { Fits result }
{
    if back {
        Atom::Role(role, y, 0)
    } else {
        Atom::Role(role, 0, y)
    }
}

// Not both r(X, y) and s(y, X), or s(X, y): `back` is the rule's own Bool.
pub fn not_both(
    clauses: &mut [u8],
    atoms: &mut [u8],
    k: &mut Counters,
    scratch: &mut [u8],
    r: u32,
    s: u32,
    back: bool,
) -> Result<(), Refusal>
    requires { (r < 2 * most_roles) × (s < 2 * most_roles) × (in_hand_bytes ≤ length scratch.old) × Good k.old × Sized (length clauses.old) (length atoms.old) 0 }
    ensures { let old = four (words scratch.old) (words clauses.old) (words atoms.old) in
        let new = four (words scratch.new) (words clauses.new) (words atoms.new) in
        ((d : List ℕ) → Did (λ _. 0) 0 (λ env f b u. not_both env (role_of r) (role_of s) back u) k.old hand_at 0 (old d) (new d) (done k.new result)) }
{
    k.restart_vars();
    let y = k.fresh_var();
    let a = Atom::Role(canon(scratch, r), 0, y);
    let b = second(canon(scratch, s), y, back);
    record::put_atom(scratch, HAND, a);
    record::put_atom(scratch, HAND + 1, b);
    hands::push_none(clauses, atoms, k, scratch, HAND, 2)
}

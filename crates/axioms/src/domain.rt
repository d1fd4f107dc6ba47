// ObjectPropertyDomain and ObjectPropertyRange.
// The bound of a number that is read from a word stays a clause: a type with it would be made at each read, to be taken apart again.
// Clauses that repeat stay clauses: each function asks for the length that it reads; `Good` is about one moment of what is lent.
ghost use Rattle.std.specs.Prelude.{List, ℕ, ◌+◌, ◌*◌, ◌<◌, ◌≤◌, length};
ghost use Rattle.words.specs.Words.{words};
ghost use Rattle.ir.specs.Roles.{role_of};
ghost use Rattle.ir.specs.Scratch.{limits_at, limits_words};
ghost use Rattle.rules.specs.Deck.{most_roles};
ghost use Rattle.rules.specs.State.{Env, E};
ghost use Rattle.pool.specs.Layout.{pool_of};
ghost use Rattle.tables.specs.Good.{Good};
ghost use Rattle.hands.specs.Hands.{Did, Queues, four_of};
ghost use Rattle.leaves.specs.Reading.{Reading};
ghost use Rattle.axioms.specs.RoleAxioms.{hand_at, domain_or_range};
ghost use Rattle.ir.specs.Answer.{done};
ghost use Rattle.tables.specs.Lending.{SameReferences};

use crate::roles;
use hands::HAND;
use heads::emit;
use ir::atom::Atom;
use ir::record;
use ir::refusal::Refusal;
use tables::lent::Tables;

// role(X, y) gives concept c at X, or at y: `range` is the rule's own Bool.
pub fn domain_or_range(
    lent: &mut Tables<'_>,
    scratch: &mut [u8],
    role: u32,
    c: u32,
    range: bool,
) -> Result<(), Refusal>
    requires { Reading scratch.old lent.old.counters × Good lent.old.counters × (role < 2 * most_roles) × (c < lent.old.counters.concepts) × (4 * (limits_at + limits_words) ≤ length scratch.old) }
    ensures references { SameReferences lent.old lent.new }
    ensures did { let old = four_of (words scratch.old) lent.old in
        let new = four_of (words scratch.new) lent.new in
        let rule : Env → ℕ → List Atom → E (Unit {0}) = λ env f b s. domain_or_range env (role_of role) c range (pool_of old.scratch lent.old.counters.concepts) s in
        Did (λ _. 0) 0 rule lent.old.counters hand_at 0 old new (done lent.new.counters result) × Queues 0 rule lent.old.counters hand_at 0 old new }
{
    lent.counters.restart_vars();
    let y = lent.counters.fresh_var();
    let a = Atom::Role(roles::canon(scratch, role), 0, y);
    record::put_atom(scratch, HAND, a);
    let v = if range { y } else { 0 };
    emit::emit_head(lent, scratch, HAND, 1, c, v)
}

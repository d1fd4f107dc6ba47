// A member of a disjoint union is below its class.
// The bound of a number that is read from a word stays a clause: a type with it would be made at each read, to be taken apart again.
// Clauses that repeat stay clauses: each function asks for the length that it reads; `Encoding` and `Good` are about one moment of what is
// lent.
ghost use Rattle.std.specs.Prelude.{ℕ, ◌+◌, ◌<◌, ◌≤◌, ◌^◌, length};
ghost use Rattle.words.specs.Words.{words};
ghost use Rattle.pool.specs.Layout.{pool_of};
ghost use Rattle.tables.specs.Good.{Good};
ghost use Rattle.hands.specs.Hands.{Did, four_of};
ghost use Rattle.axioms.specs.RoleAxioms.{hand_at, in_hand_bytes};
ghost use Rattle.axioms.specs.Bodies.{Encoding, member_rule};
ghost use Rattle.ir.specs.Answer.{done};
ghost use Rattle.tables.specs.Lending.{SameReferences};

use axioms::bodies;
use ir::deferral::Deferral;
use ir::refusal::Refusal;
use tables::lent::Tables;

pub fn union_member(
    lent: &mut Tables<'_>,
    scratch: &mut [u8],
    class: u32,
    m: u32,
) -> Result<(), Refusal>
    requires { Encoding scratch.old lent.old.counters × (m < lent.old.counters.concepts) × (in_hand_bytes ≤ length scratch.old) × (class + 1 < 2 ^ 32) × Good lent.old.counters }
    ensures references { SameReferences lent.old lent.new }
    ensures did { let old = four_of (words scratch.old) lent.old in
        let new = four_of (words scratch.new) lent.new in
        Did (λ _. 0) 0 (λ env f b s. member_rule env (pool_of old.scratch lent.old.counters.concepts) class m s) lent.old.counters hand_at 0 old new (done lent.new.counters result) }
{
    lent.counters.restart_vars();
    match antecedents::encode_antecedent(scratch, &mut lent.counters, m)? {
        Some(alternatives) => bodies::push_bodies(
            lent.clauses,
            lent.atoms,
            &mut lent.counters,
            scratch,
            m,
            alternatives.count,
            1,
            class,
        ),
        None => tables::defer(
            lent.deferrals,
            &mut lent.counters,
            Deferral::DisjointUnionMember,
        ),
    }
}

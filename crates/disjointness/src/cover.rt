// A disjoint union's class is covered by its members, where each is a class or an individual.
// A run in scratch is its first word and its count, two numbers, as the definitions' `run` has it.
// Clauses that repeat stay clauses: each function asks for the length that it reads; `Good` and `Reading` are about one moment of what is
// lent; a type with a number's bound would be made at each read and opened at each use.
ghost use Rattle.std.specs.Prelude.{◌≡◌, [], ℕ, ◌+◌, ◌<◌, ◌≤◌, ◌^◌, length};
ghost use Rattle.words.specs.Words.{words};
ghost use Rattle.rules.specs.Axioms.{cover};
ghost use Rattle.pool.specs.Layout.{run, pool_of};
ghost use Rattle.tables.specs.Good.{Good};
ghost use Rattle.hands.specs.Hands.{Did, four_of};
ghost use Rattle.leaves.specs.Reading.{Reading};
ghost use Rattle.axioms.specs.RoleAxioms.{hand_at, in_hand_bytes};
ghost use Rattle.disjointness.specs.Covers.{Members, HeadsDid};
ghost use Rattle.ir.specs.Answer.{done};
ghost use Rattle.tables.specs.Lending.{SameReferences};

use hands::HAND;
use ir::atom::Atom;
use ir::counters::Counters;
use ir::deferral::Deferral;
use ir::record;
use ir::refusal::Refusal;
use leaves::read;
use tables::lent::Tables;

// The heads of the `count` members from word `at` on, behind the first atom in hand; false where a member has none.
fn put_heads(scratch: &mut [u8], k: Counters, at: usize, count: u32) -> Result<bool, Refusal>
    requires { Reading scratch.old k × Members (words scratch.old) k at count × (in_hand_bytes ≤ length scratch.old) }
    ensures { HeadsDid k at count (words scratch.old) (words scratch.new) result }
{
    for i in 0..count {
        let m = words::get_word(scratch, at + i as usize);
        let Some(a) = read::class_id_of(scratch, k, m) else {
            return Ok(false);
        };
        if 256 <= i {
            return Err(Refusal::NoRoom);
        }
        record::put_atom(scratch, HAND + 1 + i as usize, Atom::Class(a, 0));
    }
    Ok(true)
}

// The members are the `count` words from `at` on.
pub fn cover(
    lent: &mut Tables<'_>,
    scratch: &mut [u8],
    class: u32,
    at: usize,
    count: u32,
) -> Result<(), Refusal>
    requires { Reading scratch.old lent.old.counters × Members (words scratch.old) lent.old.counters at count × (in_hand_bytes ≤ length scratch.old) × (class + 1 < 2 ^ 32) × Good lent.old.counters }
    ensures references { SameReferences lent.old lent.new }
    ensures did { let old = four_of (words scratch.old) lent.old in
        let new = four_of (words scratch.new) lent.new in
        Did (λ _. 0) 0 (λ env f b s. cover env (pool_of old.scratch lent.old.counters.concepts) class (run old.scratch at count) [] s) lent.old.counters hand_at 0 old new (done lent.new.counters result) }
{
    record::put_atom(scratch, HAND, Atom::Class(class, 0));
    if put_heads(scratch, lent.counters, at, count)? {
        let k = &mut lent.counters;
        hands::push_run(lent.clauses, lent.atoms, k, scratch, HAND, 1, count)
    } else {
        tables::defer(
            lent.deferrals,
            &mut lent.counters,
            Deferral::DisjointUnionCovering,
        )
    }
}

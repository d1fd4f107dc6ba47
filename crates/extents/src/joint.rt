// And and Or: the elements that all concepts of a list have, or one of them.
// Clauses that repeat stay clauses: each function asks for the length that it reads; a type with a number's bound would be made at each
// read and opened at each use. A run stays its first word and its count, as in the definitions.
ghost use Rattle.std.specs.Prelude.{◌≡◌, Bool, ℕ, ◌+◌, ◌<◌, ◌≤◌, length};
ghost use Rattle.words.specs.Words.{words};
ghost use Rattle.rules.specs.Invariants.{Each};
ghost use Rattle.rules.specs.Pool.{most_concepts, most_members};
ghost use Rattle.rules.specs.Run.{scratch_bytes};
ghost use Rattle.meaning.specs.Joints.{joins, unit as unit_of, over};
ghost use Rattle.pool.specs.Joints.{joint_of};
ghost use Rattle.pool.specs.Layout.{members_at, run};
ghost use Rattle.states.specs.Masks.{mask_of};
ghost use Rattle.sets.specs.Kept.{set_at};
ghost use Rattle.sets.specs.Places.{concepts_at};

use pool::joint::Joint;
use pool::record;

// Of no concepts.
fn unit(j: Joint, n: u32) -> u64
    requires { n ≤ 64 }
    ensures { result ≡ mask_of n (λ _. unit_of (joint_of j)) }
{
    match j {
        Joint::And => sets::whole(n as u64),
        Joint::Or => 0,
    }
}

fn joined(j: Joint, a: u64, b: u64) -> u64
    ensures { (n : ℕ) (f g : ℕ → Bool) → a ≡ mask_of n f → b ≡ mask_of n g → result ≡ mask_of n (λ x. joins (joint_of j) (f x) (g x)) }
{
    match j {
        Joint::And => sets::both(a, b),
        Joint::Or => sets::either(a, b),
    }
}

// Of the list members from start on. (`start` and `count` are two words of the concept's record, which a struct would carry to here
// alone. A loop: of a `fold` the step does not close, since the `j` that its closure captures is not known to be this one.)
pub fn joint_set(scratch: &[u8], j: Joint, start: u32, count: u32, n: u32) -> u64
    requires { (start + count ≤ most_members) × (n ≤ 64) × (scratch_bytes ≤ length scratch.now) × Each (λ c. c < most_concepts) (run (words scratch.now) (members_at + start) count) }
    ensures { (m : ℕ → ℕ → Bool) → Each (λ c. set_at (words scratch.now) (concepts_at + c) ≡ mask_of n (m c)) (run (words scratch.now) (members_at + start) count) → result ≡ mask_of n (λ x. over (joint_of j) (λ c. m c x) (run (words scratch.now) (members_at + start) count)) }
{
    let mut m = unit(j, n);
    for i in 0..count {
        let c = record::member(scratch, start + i);
        let set = crate::set_of(scratch, c);
        m = joined(j, m, set);
    }
    m
}

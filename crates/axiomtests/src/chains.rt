// Axioms 27 and 28: the least path along the parts that the role above has not. For each first element the sets from which the
// last k parts can still be broken; then each next element is the least that is related and in its set.
// Clauses that repeat stay clauses: `ChainIn` is about one moment of what is lent.
ghost use Rattle.std.specs.Prelude.{◌≡◌, Bool, not, ◌&&◌, ◌∷◌, ℕ, suc, ◌+◌, ◌*◌, ◌<◌, ◌≤◌, length};
ghost use Rattle.words.specs.Words.{words};
ghost use Rattle.ir.specs.Roles.{role_of};
ghost use Rattle.rules.specs.Base.{all};
ghost use Rattle.rules.specs.Deck.{most_roles};
ghost use Rattle.rules.specs.Run.{scratch_bytes};
ghost use Rattle.rules.specs.Semantics.{Interpretation, related};
ghost use Rattle.states.specs.State.{most_elements};
ghost use Rattle.states.specs.Conditions.{rises, least_of, place, chain_at};
ghost use Rattle.states.specs.Masks.{mask_of};
ghost use Rattle.states.specs.ChainLaws.{walk as walk_of};
ghost use Rattle.sets.specs.Verdicts.{shown};
ghost use Rattle.axiomtests.specs.Breaking.{least_in, Aside};
ghost use Rattle.axiomtests.specs.Chains.{part_code, parts_of, next_of, RowsOf, Chained, AllLeft, ChainIn, WalkIn};

use crate::roles;
use sets::places::{LEFT, SHOWN};

// Part j is the role whose code is word `at + step * j`; the elements are those below `size`.
#[derive(Clone, Copy)]
pub struct Chain {
    pub size: u64,
    pub sup: u32,
    pub at: usize,
    pub step: usize,
    pub parts: u32,
}

fn part(scratch: &[u8], c: Chain, j: u32) -> u32
    requires { ChainIn scratch.now c.size c × (j < c.parts) }
    ensures { result ≡ part_code (words scratch.now) c j }
{
    words::get_word(scratch, c.at + c.step * (j as usize))
}

// The elements that are related to one of the set. (extents' SOME has them too, but what it promises speaks of `any`, as a concept's
// meaning does, and this of `all`, as a chain's condition does.)
fn back(scratch: &[u8], size: u64, code: u32, set: u64) -> u64
    requires { (code < 2 * most_roles) × (size ≤ most_elements) × (scratch_bytes ≤ length scratch.now) }
    ensures { (I : Interpretation) (f : ℕ → Bool) → size ≡ I.size → RowsOf I (words scratch.now) code → set ≡ mask_of I.size f → result ≡ mask_of I.size (λ y. not (all (λ w. not (related I (role_of code) y w && f w)) (rises 0 I.size))) }
{
    sets::filtered(
        size as u32,
        |y| sets::both(sets::kept::row(scratch, code, y), set) != 0,
    )
}

// For the first element x, a set for each number of parts that are left.
fn fill_left(scratch: &mut [u8], c: Chain, x: u64)
    requires { ChainIn scratch.old c.size c × (x < c.size) }
    ensures aside { Aside (words scratch.old) (words scratch.new) }
    ensures all_left { (I : Interpretation) → Chained I (words scratch.old) c.size c → AllLeft I (words scratch.new) c x }
{
    let mut set = sets::without(sets::whole(c.size), roles::row(scratch, c.sup, x));
    sets::kept::put_set(scratch, LEFT, set);
    for k in 0..c.parts {
        let code = part(scratch, c, c.parts - 1 - k);
        set = back(scratch, c.size, code, set);
        sets::kept::put_set(scratch, LEFT + (k + 1) as usize, set);
    }
}

// The next element behind y, before the last k parts.
fn next(scratch: &[u8], c: Chain, x: u64, k: u32, y: u64) -> u64
    requires { WalkIn scratch.now c.size c x (suc k) y }
    ensures { (I : Interpretation) → Chained I (words scratch.now) c.size c → AllLeft I (words scratch.now) c x → (result ≡ next_of I (words scratch.now) c x k y) × (result < I.size) }
{
    let code = part(scratch, c, c.parts - 1 - k);
    let left = sets::kept::get_set(scratch, LEFT + k as usize);
    sets::least(sets::both(roles::row(scratch, code, y), left))
}

// The elements of the least path from x on are shown.
fn walk(scratch: &mut [u8], c: Chain, x: u64)
    requires { WalkIn scratch.old c.size c x c.parts x }
    ensures aside { Aside (words scratch.old) (words scratch.new) }
    ensures parts_after { (I : Interpretation) → Chained I (words scratch.old) c.size c → AllLeft I (words scratch.old) c x → shown (words scratch.new) (c.parts + 1) ≡ x ∷ walk_of I (role_of c.sup) x (parts_of (words scratch.old) c) x }
{
    words::put_word(scratch, SHOWN, x as u32);
    let mut y = x;
    for k in (0..c.parts).rev() {
        y = next(scratch, c, x, k, y);
        words::put_word(scratch, SHOWN + (c.parts - k) as usize, y as u32);
    }
}

// The least path that breaks the axiom, if there is one. (A loop: a closure that writes scratch would need clauses of its own for what it
// leaves.)
pub fn least_path(scratch: &mut [u8], c: Chain) -> Option<u32>
    requires { ChainIn scratch.old c.size c }
    ensures aside { Aside (words scratch.old) (words scratch.new) }
    ensures result_after { (I : Interpretation) → Chained I (words scratch.old) c.size c → least_in (words scratch.new) result ≡ least_of (rises 0 I.size) (suc c.parts) (λ l. chain_at I (role_of c.sup) (place l 0) (parts_of (words scratch.old) c) l) }
{
    for x in 0..c.size {
        fill_left(scratch, c, x);
        let left = sets::kept::get_set(scratch, LEFT + c.parts as usize);
        if sets::has(left, x) {
            walk(scratch, c, x);
            return Some(c.parts + 1);
        }
    }
    None
}

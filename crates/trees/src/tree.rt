// The tree of role atoms below a root: the bound variables, and for each the child of the root above it. (`placed` and the count n stay
// apart: one is lent, the other is answered.)
// Clauses that repeat stay clauses: each function asks for the length that it reads; `AtomsThere` is about one moment of what is lent; a
// type with a number's bound would be made at each read and opened at each use; for `Atoms` its declaration says why. A run stays its
// first word and its count, as in the definitions.
ghost use Rattle.std.specs.Prelude.{◌≡◌, false, List, is_some, unwrap_or, ◌+◌, ◌*◌, ◌≤◌, ◌<◌, length, get_or, take, replicate};
ghost use Rattle.words.specs.Words.{words};
ghost use Rattle.ir.specs.Pick.{pick};
ghost use Rattle.ir.specs.declared.atom.Atom.{Atom};
ghost use Rattle.rules.specs.Base.{contains};
ghost use Rattle.rules.specs.Branches.{any_disconnected};
ghost use Rattle.branches.specs.Layout.{bound_at, work_words};
ghost use Rattle.branches.specs.Wide.{AtomsAre, AtomsThere};
ghost use Rattle.branches.specs.Trees.{TreeIs, OnlyTree};
ghost use Rattle.trees.specs.Growth.{trues, bound_of, bind_of, VisitedBy, Rounded, Grown};

use branches::atom;
use branches::atom::{Atoms, ROLE};
use branches::layout::{BOUND, TOPS};
use branches::place::place;

// R(u, v), with u at place i of the n bound variables: binds v, unless it is bound; how many there are then.
fn bind(scratch: &mut [u8], n: usize, i: usize, v: u32) -> usize
    requires { (n ≤ 256) × (i < n) × (4 * work_words ≤ length scratch.old) }
    ensures value { result ≡ pick (contains (bound_of (words scratch.old) n) v) n (n + 1) }
    ensures scratch_after { words scratch.new ≡ bind_of (words scratch.old) n i v (contains (bound_of (words scratch.old) n) v) }
{
    if place(scratch, BOUND, n, v).is_some() {
        return n;
    }
    let top = if i == 0 {
        v
    } else {
        words::get_word(scratch, TOPS + i)
    };
    words::put_word(scratch, BOUND + n, v);
    words::put_word(scratch, TOPS + n, top);
    n + 1
}

// Atom j, in record `at`, with n variables bound: a role atom that is not placed is, where its first variable is bound; how many
// variables are bound then.
fn visit(scratch: &mut [u8], placed: &mut [bool], at: usize, j: usize, n: usize) -> Option<usize>
    requires { (6 * at + 6 ≤ bound_at) × (j < length placed.old) × (4 * work_words ≤ length scratch.old) × (get_or placed.old j false ≡ false → n ≤ 256) }
    ensures { VisitedBy (words scratch.old) placed.old (6 * at) j n (words scratch.new) placed.new result }
{
    if placed[j] {
        return None;
    }
    if atom::kind(scratch, at) != ROLE {
        return None;
    }
    let u = atom::var(scratch, at);
    let i = place(scratch, BOUND, n, u)?;
    placed[j] = true;
    let v = atom::other(scratch, at);
    Some(bind(scratch, n, i, v))
}

// One round over the atoms: how many variables are bound then, if it places one.
fn round(scratch: &mut [u8], placed: &mut [bool], atoms: Atoms, bound: usize) -> Option<usize>
    requires { (6 * (atoms.base + atoms.count) ≤ bound_at) × (atoms.count ≤ length placed.old) × (atoms.count ≤ 256) × (4 * work_words ≤ length scratch.old) × (bound ≤ 1 + trues (take atoms.count placed.old)) }
    ensures { Rounded (words scratch.old) placed.old atoms.base atoms.count bound (unwrap_or result bound) (is_some result) (words scratch.new) placed.new }
{
    let mut grown = None;
    for j in 0..atoms.count as usize {
        let n = grown.unwrap_or(bound);
        if let Some(m) = visit(scratch, placed, atoms.base + j, j, n) {
            grown = Some(m);
        }
    }
    grown
}

// Rounds until one places no atom; how many variables are bound then.
fn grow(scratch: &mut [u8], placed: &mut [bool], atoms: Atoms) -> usize
    requires { (6 * (atoms.base + atoms.count) ≤ bound_at) × (take atoms.count placed.old ≡ replicate atoms.count false) × (atoms.count ≤ length placed.old) × (atoms.count ≤ 256) × (4 * work_words ≤ length scratch.old) }
    ensures { Grown (words scratch.old) atoms.base atoms.count result (words scratch.new) placed.new }
{
    let mut n = 1;
    while let Some(m) = round(scratch, placed, atoms, n) {
        n = m;
    }
    n
}

// A role atom that is not placed is disconnected from the root.
fn any_disconnected(scratch: &[u8], placed: &[bool], atoms: Atoms) -> bool
    requires { (6 * (atoms.base + atoms.count) ≤ bound_at) × (atoms.count ≤ length placed.now) × (4 * work_words ≤ length scratch.now) }
    ensures { (l : List Atom) → AtomsAre (words scratch.now) atoms.base atoms.count l → result ≡ any_disconnected l (take atoms.count placed.now) }
{
    (0..atoms.count as usize).any(|j| atom::kind(scratch, atoms.base + j) == ROLE && !placed[j])
}

// How many variables are bound; none where a role atom is disconnected.
pub fn tree(scratch: &mut [u8], atoms: Atoms, root: u32) -> Option<usize>
    requires { AtomsThere (words scratch.old) atoms.base atoms.count × (atoms.count ≤ 256) × (6 * (atoms.base + atoms.count) ≤ bound_at) × (4 * work_words ≤ length scratch.old) }
    ensures tree_is { (l : List Atom) → AtomsAre (words scratch.old) atoms.base atoms.count l → TreeIs (words scratch.new) root l result }
    ensures only_tree { OnlyTree (words scratch.old) (words scratch.new) }
{
    let mut placed = [false; 256];
    words::put_word(scratch, BOUND, root);
    words::put_word(scratch, TOPS, root);
    let n = grow(scratch, &mut placed, atoms);
    if any_disconnected(scratch, &placed, atoms) {
        return None;
    }
    Some(n)
}

// The edge from a root to a child, and the variables to keep.
// Clauses that repeat stay clauses: each function asks for the length that it reads; `AtomsThere` and `TameThere` are about one moment of
// what is lent; a type with a number's bound would be made at each read and opened at each use; for `Atoms` its declaration says why.
ghost use Rattle.std.specs.Prelude.{◌≡◌, Bool, List, [], ◌∷◌, ℕ, ◌+◌, ◌*◌, ◌<◌, ◌≤◌, length, get_or};
ghost use Rattle.words.specs.Words.{words};
ghost use Rattle.ir.specs.declared.atom.Atom.{Atom};
ghost use Rattle.rules.specs.Base.{any, contains};
ghost use Rattle.rules.specs.Branches.{is_edge, tree_vars, mentions};
ghost use Rattle.branches.specs.Layout.{copy_at, keep_at, work_words};
ghost use Rattle.branches.specs.Wide.{AtomsAre, AtomsThere};
ghost use Rattle.branches.specs.Memo.{TameThere};
ghost use Rattle.branches.specs.Grouped.{OnlyRecords};
ghost use Rattle.branches.specs.Edges.{KeepIs, EdgeIs, fronted};
ghost use Rattle.branches.specs.Renumbered.{run};
ghost use Rattle.branches.specs.AtomsLaws.{WordsAre};

use crate::atom::{Atoms, ROLE};
use crate::layout::{COPY, KEEP};
use crate::place::place;
use crate::{atom, insert};

// v is one of the first n variables to keep.
fn is_kept(scratch: &[u8], n: u32, v: u32) -> bool
    requires { (n ≤ 512) × (4 * work_words ≤ length scratch.now) }
    ensures { result ≡ contains (run (words scratch.now) keep_at n) v }
{
    place(scratch, KEEP, n as usize, v).is_some()
}

// A variable of atom i, a class or role atom, passes the test.
fn any_var<F: Fn(u32) -> bool>(scratch: &[u8], i: usize, test: F) -> bool
    requires callable { F.IsAlwaysCallable test }
    requires there { (24 * i + 24 ≤ length scratch.now) × (get_or (words scratch.now) (6 * i) 0 < 3) }
    ensures { (p : ℕ → Bool) (a : Atom) → ((x : ℕ) (b : Bool) → F.post test x b → b ≡ p x) → WordsAre (words scratch.now) (6 * i) a → result ≡ any p (tree_vars a) }
{
    if test(atom::var(scratch, i)) {
        return true;
    }
    atom::kind(scratch, i) == ROLE && test(atom::other(scratch, i))
}

// One of the atoms mentions one of the `keep` variables to keep.
pub fn mentions_kept(scratch: &[u8], atoms: Atoms, keep: u32) -> bool
    requires { TameThere (words scratch.now) atoms.base atoms.count × (keep ≤ 512) × (4 * work_words ≤ length scratch.now) }
    ensures { (l : List Atom) (kept : List ℕ) → AtomsAre (words scratch.now) atoms.base atoms.count l → KeepIs (words scratch.now) keep kept → result ≡ mentions kept l }
{
    (0..atoms.count as usize).any(|i| any_var(
        scratch,
        atoms.base + i,
        |v| is_kept(scratch, keep, v),
    ))
}

// Atom i is R(root, t).
fn is_edge(scratch: &[u8], i: usize, root: u32, t: u32) -> bool
    requires { 24 * i + 24 ≤ length scratch.now }
    ensures { (a : Atom) → WordsAre (words scratch.now) (6 * i) a → result ≡ is_edge root t a }
{
    atom::kind(scratch, i) == ROLE && atom::var(scratch, i) == root && atom::other(scratch, i) == t
}

// Atom i, a class or role atom, mentions the root.
fn mentions_root(scratch: &[u8], i: usize, root: u32) -> bool
    requires { (24 * i + 24 ≤ length scratch.now) × (get_or (words scratch.now) (6 * i) 0 < 3) }
    ensures { (a : Atom) → WordsAre (words scratch.now) (6 * i) a → result ≡ any (contains (root ∷ [])) (tree_vars a) }
{
    any_var(scratch, i, |v| v == root)
}

// The one edge from the root to t, if nothing else mentions the root.
pub fn only_edge(scratch: &[u8], atoms: Atoms, root: u32, t: u32) -> Option<u32>
    requires { TameThere (words scratch.now) atoms.base atoms.count × (atoms.base + atoms.count ≤ copy_at) × (4 * work_words ≤ length scratch.now) }
    ensures { (l : List Atom) → AtomsAre (words scratch.now) atoms.base atoms.count l → EdgeIs l root t result }
{
    let n = atoms.count as usize;
    let e = (0..n).position(|i| is_edge(scratch, atoms.base + i, root, t))?;
    if (0..n).any(|i| i != e && mentions_root(scratch, atoms.base + i, root)) {
        return None;
    }
    Some(e as u32)
}

// Atom e comes first; the others keep their order.
pub fn to_front(scratch: &mut [u8], atoms: Atoms, e: u32)
    requires { AtomsThere (words scratch.old) atoms.base atoms.count × (e < atoms.count) × (atoms.base + atoms.count ≤ copy_at) × (4 * work_words ≤ length scratch.old) }
    ensures atoms_are { (l : List Atom) → AtomsAre (words scratch.old) atoms.base atoms.count l → AtomsAre (words scratch.new) atoms.base atoms.count (fronted l e) }
    ensures only_records { OnlyRecords atoms.base atoms.count (words scratch.old) (words scratch.new) }
{
    insert::insert(scratch, atoms.base, atoms.base + e as usize);
}

// And back.
pub fn from_front(scratch: &mut [u8], atoms: Atoms, e: u32)
    requires { AtomsThere (words scratch.old) atoms.base atoms.count × (e < atoms.count) × (atoms.base + atoms.count ≤ copy_at) × (4 * work_words ≤ length scratch.old) }
    ensures atoms_are { (l : List Atom) → length l ≡ atoms.count → AtomsAre (words scratch.old) atoms.base atoms.count (fronted l e) → AtomsAre (words scratch.new) atoms.base atoms.count l }
    ensures only_records { OnlyRecords atoms.base atoms.count (words scratch.old) (words scratch.new) }
{
    insert::copy_record(scratch, COPY, atoms.base);
    words::move_words(
        scratch,
        6 * (atoms.base + 1),
        6 * atoms.base,
        6 * (e as usize),
    );
    insert::copy_record(scratch, atoms.base + e as usize, COPY);
}

// A body renumbered from its root, a word an atom: a variable's number is its place among the variables met.
// Clauses that repeat stay clauses: each function asks for the length that it reads; `TameThere` is about one moment of what is lent; a
// type with a number's bound would be made at each read and opened at each use; for `Atoms` its declaration says why. A run stays its
// first word and its count, as in the definitions.
ghost use Rattle.std.specs.Prelude.{◌≡◌, List, map, ◌+◌, ◌*◌, ◌<◌, ◌≤◌, length, Some};
ghost use Rattle.words.specs.Words.{words};
ghost use Rattle.ir.specs.Roles.{role_code};
ghost use Rattle.ir.specs.Records.{atom_at};
ghost use Rattle.ir.specs.declared.atom.Atom.{Atom};
ghost use Rattle.ir.specs.declared.atom.Atom.TheVariants.{Class, Role as RoleAtom};
ghost use Rattle.rules.specs.Branches.{place_of};
ghost use Rattle.rules.specs.Branches as Rules;
ghost use Rattle.branches.specs.Layout.{bound_at, met_at, keep_at, renumbered_at, work_words};
ghost use Rattle.tables.specs.TabledLaws.{At};
ghost use Rattle.branches.specs.Wide.{AtomsAre};
ghost use Rattle.branches.specs.Memo.{packed, Tame, TameThere};
ghost use Rattle.branches.specs.Renumbered.{run, Met, Put, OnlyRenumbered, TameAt};

use crate::atom::Atoms;
use crate::layout::{MET, RENUMBERED};
use crate::pack;
use crate::place::place;
use ir::atom::Atom;
use ir::record;
use ir::role::Role;

// v is met: how many variables are met then, and its place among them, the last where it is new.
fn meet(scratch: &mut [u8], n: usize, v: u32) -> (usize, u32)
    requires { (n < 513) × (4 * work_words ≤ length scratch.old) }
    ensures met { Met met_at keep_at (words scratch.old) n v (words scratch.new) result.0 }
    ensures place { (result.1 ≡ place_of (run (words scratch.old) met_at n) v) × (result.1 ≤ n) }
{
    match place(scratch, MET, n, v) {
        Some(i) => (n, i as u32),
        None => {
            words::put_word(scratch, MET + n, v);
            (n + 1, n as u32)
        }
    }
}

// Word i of the renumbered body, for a class atom.
fn put_class(scratch: &mut [u8], n: usize, i: usize, k: u32, v: u32) -> usize
    requires { (n + 2 ≤ 513) × (i < 256) × (4 * work_words ≤ length scratch.old) × (k < 2097152) }
    ensures { Put met_at keep_at renumbered_at (words scratch.old) n i (Class k v) (words scratch.new) result }
{
    let (m, p) = meet(scratch, n, v);
    let w = pack::pack(Atom::Class(k, p));
    words::put_word(scratch, RENUMBERED + i, w);
    m
}

// For a role atom.
fn put_role(scratch: &mut [u8], n: usize, i: usize, r: Role, u: u32, v: u32) -> usize
    requires { (n + 2 ≤ 513) × (i < 256) × (4 * work_words ≤ length scratch.old) × (role_code r < 2048) }
    ensures { Put met_at keep_at renumbered_at (words scratch.old) n i (RoleAtom r u v) (words scratch.new) result }
{
    let (l, p) = meet(scratch, n, u);
    let (m, q) = meet(scratch, l, v);
    let w = pack::pack(Atom::Role(r, p, q));
    words::put_word(scratch, RENUMBERED + i, w);
    m
}

fn put_atom(scratch: &mut [u8], n: usize, i: usize, a: Atom) -> usize
    requires { (n + 2 ≤ 513) × (i < 256) × (4 * work_words ≤ length scratch.old) × Tame a }
    ensures { Put met_at keep_at renumbered_at (words scratch.old) n i a (words scratch.new) result }
{
    match a {
        Atom::Class(k, v) => put_class(scratch, n, i, k, v),
        Atom::Role(r, u, v) => put_role(scratch, n, i, r, u, v),
        _ => unreachable!(),
    }
}

// For the atom of record `at`.
fn put_record(scratch: &mut [u8], n: usize, i: usize, at: usize) -> usize
    requires { (n + 2 ≤ 513) × (i < 256) × (4 * work_words ≤ length scratch.old) × (6 * at + 6 ≤ bound_at) × TameAt (words scratch.old) at }
    ensures { (a : Atom) → atom_at (words scratch.old) at ≡ Some a → Put met_at keep_at renumbered_at (words scratch.old) n i a (words scratch.new) result }
{
    match record::get_atom(scratch, at) {
        Some(a) => put_atom(scratch, n, i, a),
        None => unreachable!(),
    }
}

// The atoms renumbered from the root.
pub fn renumber(scratch: &mut [u8], atoms: Atoms, root: u32)
    requires { TameThere (words scratch.old) atoms.base atoms.count × (atoms.count ≤ 256) × (6 * (atoms.base + atoms.count) ≤ bound_at) × (4 * work_words ≤ length scratch.old) }
    ensures at { (l : List Atom) → AtomsAre (words scratch.old) atoms.base atoms.count l → At (words scratch.new) renumbered_at (map packed (Rules.renumber l root)) }
    ensures only_renumbered { OnlyRenumbered met_at keep_at (words scratch.old) (words scratch.new) }
{
    words::put_word(scratch, MET, root);
    let mut n: usize = 1;
    for i in 0..atoms.count as usize {
        n = put_record(scratch, n, i, atoms.base + i);
    }
}

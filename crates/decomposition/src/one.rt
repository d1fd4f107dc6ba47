// The body of one clause, named where it is wide.
// Clauses that repeat stay clauses: each function asks for the length that it reads; `NamedThere` is about one moment of what is lent; the
// bounds of `Naming`, which is handed on whole, stay clauses: a ghost field would ask more of functions that have no such clause.
ghost use Rattle.std.specs.Prelude.{◌≡◌, not, List, ℕ, ◌+◌, ◌*◌, ◌<◌, ◌≤◌, length};
ghost use Rattle.words.specs.Words.{words};
ghost use Rattle.ir.specs.declared.atom.Atom.{Atom};
ghost use Rattle.rules.specs.Base.{any};
ghost use Rattle.rules.specs.State.{Clause};
ghost use Rattle.rules.specs.Branches.{is_tree_atom, add_var, head_vars};
ghost use Rattle.rules.specs.Branches as Rules;
ghost use Rattle.tables.specs.Tabled.{Run};
ghost use Rattle.branches.specs.Layout.{work_words};
ghost use Rattle.branches.specs.Memo.{NamedHeld, NamedThere};
ghost use Rattle.branches.specs.Edges.{KeepIs};
ghost use Rattle.decomposition.specs.Bodies.{reduced, PartsThere, OneBy, OnlyKeep};

use branches::atom::{Atoms, ROLE};
use branches::layout::{BODY, KEEP};
use branches::memo::Naming;
use branches::place::place;
use branches::{atom, vars};
use ir::refusal::Refusal;
use naming::name;
use tables::read;

// All atoms of a body are class and role atoms.
fn is_plain(body: &[u8]) -> bool
    ensures { (l : List Atom) → Run body.now l → result ≡ not (any (λ a. not (is_tree_atom a)) l) }
{
    (0..read::atom_room(body)).all(|i| atom::kind(body, i) <= ROLE)
}

// v among the n variables to keep, but for X; how many they are then.
fn keep_var(scratch: &mut [u8], n: u32, v: u32) -> u32
    requires { (n < 512) × (4 * work_words ≤ length scratch.old) }
    ensures by_index { (kept : List ℕ) → KeepIs (words scratch.old) n kept → KeepIs (words scratch.new) result (add_var kept v) }
    ensures upper_bound { (result ≤ n + 1) × OnlyKeep (words scratch.old) (words scratch.new) }
{
    if v == 0 || place(scratch, KEEP, n as usize, v).is_some() {
        return n;
    }
    words::put_word(scratch, KEEP + n as usize, v);
    n + 1
}

// head_vars: the variables of a head, but X.
fn head_vars(scratch: &mut [u8], head: &[u8]) -> u32
    requires { (length head.now ≤ 24 * 256) × (4 * work_words ≤ length scratch.old) }
    ensures keep_is { (l : List Atom) → Run head.now l → KeepIs (words scratch.new) result (head_vars l) }
    ensures upper_bound { (result ≤ 512) × OnlyKeep (words scratch.old) (words scratch.new) }
{
    let mut n: u32 = 0;
    for i in 0..read::atom_room(head) {
        n = keep_var(scratch, n, atom::var(head, i));
        n = keep_var(scratch, n, atom::other(head, i));
    }
    n
}

// The clause of this body and this head: the numbers then, and how many atoms its new body has, from record BODY on, if something
// in it is named.
pub fn decompose_one(
    scratch: &mut [u8],
    body: &[u8],
    head: &[u8],
    s: Naming,
) -> Result<Option<(Naming, u32)>, Refusal>
    requires { PartsThere body.now head.now × NamedThere (words scratch.old) s × (s.first ≤ 1100000) × (4 * work_words ≤ length scratch.old) }
    ensures { (x : Clause) (z : Rules.Naming) → Run body.now x.body → Run head.now x.head → NamedHeld (words scratch.old) s z → OneBy (words scratch.new) s x (reduced x z) result }
{
    if !vars::is_wide(body, 0) {
        return Ok(None);
    }
    if !is_plain(body) {
        return Ok(None);
    }
    let keep = head_vars(scratch, head);
    words::copy_words(scratch, 6 * BODY, body);
    let count = read::atom_room(body) as u32;
    let base = BODY;
    name::name_branches(scratch, s, Atoms { base, count }, 0, keep)
}

// name_branches: each child of the root, with what is below it, becomes one class atom on the root. (`root`, `t` and `keep` stay apart:
// each step of the recursion takes other ones of them, and changes one.)
// Clauses that repeat stay clauses: each function asks for the length that it reads; `NamedThere` and `TameThere` are about one moment of
// what is lent; the bounds of `Atoms` and `Naming`, which are handed on whole, stay clauses: a ghost field would ask more of functions that have
// no such clause.
ghost use Rattle.std.specs.Prelude.{List, ◌++◌, ℕ, ◌+◌, ◌*◌, ◌<◌, ◌≤◌, length};
ghost use Rattle.words.specs.Words.{words};
ghost use Rattle.ir.specs.declared.atom.Atom.{Atom};
ghost use Rattle.rules.specs.Branches.{Groups, name_by, mentions};
ghost use Rattle.rules.specs.Branches as Rules;
ghost use Rattle.branches.specs.Layout.{body_at, copy_at, work_words};
ghost use Rattle.branches.specs.Wide.{AtomsAre};
ghost use Rattle.branches.specs.Memo.{TameThere, NamedHeld, NamedThere};
ghost use Rattle.branches.specs.Edges.{KeepIs};
ghost use Rattle.branches.specs.Grouped.{all_of};
ghost use Rattle.trees.specs.Grouping.{tops, counts};
ghost use Rattle.naming.specs.Names.{ReducedBy, OnlyNames};
ghost use Rattle.naming.specs.Splits.{SplitBy, CalledBy, TurnedBy, Standing, StandingThere, Laid, LaidThere, split_rule, group_rule, groups_rule, child_of};

use branches::atom::Atoms;
use branches::memo::Naming;
use branches::{edges, memo, vars};
use ir::atom::Atom;
use ir::record;
use ir::refusal::Refusal;
use trees::children::{Child, Children};
use trees::{group, tree};

// What the children so far have come to: the numbers, where the result ends, and whether a child is named.
#[derive(Clone, Copy)]
pub struct Reached {
    pub naming: Naming,
    pub end: usize,
    pub any: bool,
}

// A child over the cap is first split one level down: the numbers then, and how many atoms are left.
#[cycle(name_branches_name_group_name_groups_split_group_turn)]
fn split_group(
    scratch: &mut [u8],
    s: Naming,
    atoms: Atoms,
    root: u32,
    t: u32,
) -> Result<(Naming, u32), Refusal>
    requires { TameThere (words scratch.old) atoms.base atoms.count × (atoms.count ≤ 256) × (body_at ≤ atoms.base) × (atoms.base + atoms.count ≤ copy_at) × NamedThere (words scratch.old) s × (s.first ≤ 1100000) × (4 * work_words ≤ length scratch.old) }
    ensures split_by { (l : List Atom) (z : Rules.Naming) (f : ℕ) → AtomsAre (words scratch.old) atoms.base atoms.count l → NamedHeld (words scratch.old) s z → atoms.count ≤ f → SplitBy (words scratch.new) atoms.base atoms.count s (split_rule f l root t z) result }
    ensures only_names { OnlyNames atoms.base atoms.count (words scratch.old) (words scratch.new) }
{
    let from = 24 * atoms.base;
    let to = 24 * (atoms.base + atoms.count as usize);
    if !vars::is_wide(&scratch[from..to], root) {
        return Ok((s, atoms.count));
    }
    let Some(e) = edges::only_edge(scratch, atoms, root, t) else {
        return Ok((s, atoms.count));
    };
    edges::to_front(scratch, atoms, e);
    let inner = Atoms {
        base: atoms.base + 1,
        count: atoms.count - 1,
    };
    match name_branches(scratch, s, inner, t, 0)? {
        Some((m, n)) => Ok((m, n + 1)),
        None => {
            edges::from_front(scratch, atoms, e);
            Ok((s, atoms.count))
        }
    }
}

// The numbers then, and the name of a child and what is below it.
#[cycle(name_branches_name_group_name_groups_split_group_turn)]
fn name_group(
    scratch: &mut [u8],
    s: Naming,
    atoms: Atoms,
    root: u32,
    t: u32,
) -> Result<(Naming, u32), Refusal>
    requires { TameThere (words scratch.old) atoms.base atoms.count × (atoms.count ≤ 256) × (body_at ≤ atoms.base) × (atoms.base + atoms.count ≤ copy_at) × NamedThere (words scratch.old) s × (s.first ≤ 1100000) × (4 * work_words ≤ length scratch.old) }
    ensures called_by { (l : List Atom) (z : Rules.Naming) (f : ℕ) → AtomsAre (words scratch.old) atoms.base atoms.count l → NamedHeld (words scratch.old) s z → atoms.count ≤ f → CalledBy (words scratch.new) root s (group_rule f l root t z) result }
    ensures only_names { OnlyNames atoms.base atoms.count (words scratch.old) (words scratch.new) }
{
    let (m, count) = split_group(scratch, s, atoms, root, t)?;
    let base = atoms.base;
    memo::name_of(scratch, m, Atoms { base, count }, root)
}

// A child, whose atoms stand behind the result; with one of the `keep` variables it stays. What is reached then.
#[cycle(name_branches_name_group_name_groups_split_group_turn)]
fn turn(
    scratch: &mut [u8],
    reached: Reached,
    child: Atoms,
    root: u32,
    t: u32,
    keep: u32,
) -> Result<Reached, Refusal>
    requires { StandingThere (words scratch.old) reached.end child.base child.count reached.naming × (keep ≤ 512) × (4 * work_words ≤ length scratch.old) }
    ensures fact { (base count : ℕ) (made group rest : List Atom) (z : Rules.Naming) (kept : List ℕ) (f : ℕ) → Standing (words scratch.old) base count reached.end child.base child.count made group rest reached.naming z → KeepIs (words scratch.old) keep kept → child.count ≤ f → TurnedBy (words scratch.new) base reached.end (child.base + child.count) made rest reached.naming (child_of f root t group reached.any (mentions kept group) z) result }
    ensures fact_2 { (base count : ℕ) (made group rest : List Atom) (z : Rules.Naming) → Standing (words scratch.old) base count reached.end child.base child.count made group rest reached.naming z → OnlyNames base count (words scratch.old) (words scratch.new) }
{
    let q = reached.end;
    if edges::mentions_kept(scratch, child, keep) {
        words::move_words(scratch, 6 * child.base, 6 * q, 6 * (child.count as usize));
        let end = q + child.count as usize;
        return Ok(Reached { end, ..reached });
    }
    let (naming, e) = name_group(scratch, reached.naming, child, root, t)?;
    record::put_atom(scratch, q, Atom::Class(e, root));
    Ok(Reached {
        naming,
        end: q + 1,
        any: true,
    })
}

// Each of the children, whose atoms stand behind the root's own: the numbers then and how many atoms are left, or nothing is named.
#[cycle(name_branches_name_group_name_groups_split_group_turn)]
fn name_groups(
    scratch: &mut [u8],
    children: &Children,
    s: Naming,
    atoms: Atoms,
    root: u32,
    keep: u32,
) -> Result<Option<(Naming, u32)>, Refusal>
    requires { LaidThere (words scratch.old) (tops children.now.each) (counts children.now.each) atoms.base atoms.count children.now.len × (atoms.count ≤ 256) × (body_at ≤ atoms.base) × (atoms.base + atoms.count ≤ copy_at) × NamedThere (words scratch.old) s × (s.first ≤ 1100000) × (keep ≤ 512) × (4 * work_words ≤ length scratch.old) }
    ensures reduced_by { (g : Groups) (z : Rules.Naming) (kept : List ℕ) (f : ℕ) → Laid (words scratch.old) (tops children.now.each) (counts children.now.each) atoms.base atoms.count g children.now.len → NamedHeld (words scratch.old) s z → KeepIs (words scratch.old) keep kept → atoms.count ≤ f → ReducedBy (words scratch.new) atoms.base atoms.count (g.root_atoms ++ all_of g.groups) kept s (groups_rule f root kept g z) result }
    ensures only_names { OnlyNames atoms.base atoms.count (words scratch.old) (words scratch.new) }
{
    let mut p = atoms.base + (atoms.count as usize - group::behind(children, 0));
    let mut reached = Reached {
        naming: s,
        end: p,
        any: false,
    };
    for child in &children.each[..children.len] {
        let group = Atoms {
            base: p,
            count: child.count,
        };
        reached = turn(scratch, reached, group, root, child.top, keep)?;
        p += child.count as usize;
    }
    if reached.any {
        return Ok(Some((reached.naming, (reached.end - atoms.base) as u32)));
    }
    Ok(None)
}

// Over the atoms, in place: the numbers then and how many atoms are left, or nothing is named.
#[cycle(name_branches_name_group_name_groups_split_group_turn)]
pub fn name_branches(
    scratch: &mut [u8],
    s: Naming,
    atoms: Atoms,
    root: u32,
    keep: u32,
) -> Result<Option<(Naming, u32)>, Refusal>
    requires { TameThere (words scratch.old) atoms.base atoms.count × (atoms.count ≤ 256) × (body_at ≤ atoms.base) × (atoms.base + atoms.count ≤ copy_at) × NamedThere (words scratch.old) s × (s.first ≤ 1100000) × (keep ≤ 512) × (4 * work_words ≤ length scratch.old) }
    ensures reduced_by { (l : List Atom) (z : Rules.Naming) (kept : List ℕ) (f : ℕ) → AtomsAre (words scratch.old) atoms.base atoms.count l → NamedHeld (words scratch.old) s z → KeepIs (words scratch.old) keep kept → atoms.count < f → ReducedBy (words scratch.new) atoms.base atoms.count l kept s (name_by f l root kept z) result }
    ensures only_names { OnlyNames atoms.base atoms.count (words scratch.old) (words scratch.new) }
{
    let Some(n) = tree::tree(scratch, atoms, root) else {
        return Ok(None);
    };
    // lent, not handed back: it would stand twice in each turn of the recursion, whose stack is what ENTRIES promises
    let mut children = Children {
        each: [Child { top: 0, count: 0 }; 256],
        len: 0,
    };
    if group::arrange(scratch, &mut children, atoms, n) {
        return name_groups(scratch, &children, s, atoms, root, keep);
    }
    Ok(None)
}

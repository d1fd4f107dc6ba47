// Clauses at their new places in the tables, and the named branches behind them. Atoms that move within the atom table are told
// by number: no part of it can be lent while it is written. (The tables stay apart: each function has two of them at most, and with all
// four it would say again what it leaves alone.)
// Clauses that repeat stay clauses: each function asks for the length that it reads; `NamedThere` is about one moment of what is lent; the
// bounds of `Naming`, which is handed on whole, stay clauses: a ghost field would ask more of functions that have no such clause; tables that
// are read are no `Tables`. A run stays its first word and its count, as in the definitions.
ghost use Rattle.std.specs.Prelude.{◌≡◌, List, [], ◌∷◌, ◌++◌, map, ◌+◌, ◌*◌, ◌<◌, ◌≤◌, length, take, drop};
ghost use Rattle.std.proofs.lemmas.List.Edits.{sets};
ghost use Rattle.words.specs.Words.{words};
ghost use Rattle.ir.specs.declared.atom.Atom.{Atom};
ghost use Rattle.ir.specs.declared.atom.Atom.TheVariants.{Class};
ghost use Rattle.rules.specs.Run.{clause_words, atom_words, most_atoms, flat};
ghost use Rattle.rules.specs.Branches as Rules;
ghost use Rattle.rules.specs.Invariants.{Each};
ghost use Rattle.tables.specs.Drawn.{Sized};
ghost use Rattle.tables.specs.Tabled.{first_put, body_put};
ghost use Rattle.tables.specs.Tabled.{At};
ghost use Rattle.branches.specs.Layout.{body_at, work_words};
ghost use Rattle.branches.specs.Memo.{packed, Packable, NamedHeld, NamedThere};
ghost use Rattle.decomposition.specs.Placing.{moved, branches_at, branch_atoms_at};

use branches::layout::{BODY, NAMED};
use branches::memo::Naming;
use branches::pack;
use ir::atom::Atom;
use ir::record;
use tables::write;

// Clause c, whose `count` atoms stand from atom `first` on, stands from atom `to` on.
pub fn put_whole(clauses: &mut [u8], atoms: &mut [u8], c: u32, first: usize, count: u32, to: u32)
    requires { (4 * (clause_words * c + clause_words) ≤ length clauses.old) × (24 * (first + count) ≤ length atoms.old) × (to ≤ first) }
    ensures clauses_after { words clauses.new ≡ first_put (words clauses.old) c to }
    ensures atoms_after { words atoms.new ≡ moved (words atoms.old) (6 * first) (6 * to) (6 * count) }
{
    words::move_words(atoms, 6 * first, 6 * (to as usize), 6 * (count as usize));
    write::set_first(clauses, c as usize, to);
}

// Clause c stands from atom `to` on with the n atoms from record BODY on as its body; its nh head atoms stood from atom `head` on.
pub fn put_rewritten(
    scratch: &[u8],
    clauses: &mut [u8],
    atoms: &mut [u8],
    c: u32,
    n: u32,
    head: usize,
    nh: u32,
    to: u32,
)
    requires { (n ≤ 256) × (4 * work_words ≤ length scratch.now) × (4 * (clause_words * c + clause_words) ≤ length clauses.old) × (24 * (head + nh) ≤ length atoms.old) × (length atoms.old ≤ 4 * atom_words * most_atoms) × (to + n ≤ head) }
    ensures clauses_after { words clauses.new ≡ body_put (first_put (words clauses.old) c to) c n }
    ensures atoms_after { words atoms.new ≡ moved (sets (words atoms.old) (6 * to) (take (6 * n) (drop (6 * body_at) (words scratch.now)))) (6 * head) (6 * (to + n)) (6 * nh) }
{
    let from = 24 * BODY;
    let end = 24 * (BODY + n as usize);
    words::copy_words(atoms, 6 * (to as usize), &scratch[from..end]);
    words::move_words(atoms, 6 * head, 6 * ((to + n) as usize), 6 * (nh as usize));
    write::set_first(clauses, c as usize, to);
    write::set_body(clauses, c as usize, n);
}

// The branch of n atoms whose words begin at word p, from atom `at` on: its body, and its name as the head.
fn put_branch(scratch: &[u8], atoms: &mut [u8], p: usize, n: u32, at: usize, name: u32)
    requires { (4 * (p + n) ≤ length scratch.now) × (24 * (at + n + 1) ≤ length atoms.old) × ((l : List Atom) × Each Packable l × (n ≡ length l) × At (words scratch.now) p (map packed l)) × (name < 2097152) }
    ensures { (l : List Atom) → Each Packable l → n ≡ length l → At (words scratch.now) p (map packed l) → words atoms.new ≡ sets (words atoms.old) (6 * at) (flat (l ++ (Class name 0 ∷ []))) }
{
    for j in 0..n as usize {
        record::put_atom(atoms, at + j, pack::unpack(words::get_word(scratch, p + j)));
    }
    record::put_atom(atoms, at + n as usize, Atom::Class(name, 0));
}

// The branches as clauses, from clause c and atom `to` on.
pub fn put_named(scratch: &[u8], clauses: &mut [u8], atoms: &mut [u8], s: Naming, c: u32, to: u32)
    requires { NamedThere (words scratch.now) s × (s.first ≤ 1100000) × (4 * work_words ≤ length scratch.now) × (4 * (clause_words * (c + s.named)) ≤ length clauses.old) × (24 * (to + s.used) ≤ length atoms.old) × Sized (length clauses.old) (length atoms.old) 0 }
    ensures clauses_after { (z : Rules.Naming) → NamedHeld (words scratch.now) s z → words clauses.new ≡ branches_at c to z.named (words clauses.old) }
    ensures atoms_after { (z : Rules.Naming) → NamedHeld (words scratch.now) s z → words atoms.new ≡ branch_atoms_at to z.named (words atoms.old) }
{
    let mut p: usize = NAMED;
    let mut a = to;
    for i in 0..s.named {
        let n = words::get_word(scratch, p);
        write::put_clause(clauses, (c + i) as usize, a, n, 1);
        put_branch(scratch, atoms, p + 1, n, a as usize, s.first + i);
        a += n + 1;
        p += n as usize + 1;
    }
}

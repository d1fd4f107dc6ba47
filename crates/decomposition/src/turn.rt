// One clause of the list, and its end.
// Clauses that repeat stay clauses: each function asks for the length that it reads.
ghost use Rattle.std.specs.Prelude.{◌≡◌, List, ℕ, ◌*◌, ◌<◌, ◌≤◌, length};
ghost use Rattle.words.specs.Words.{words};
ghost use Rattle.rules.specs.State.{Clause};
ghost use Rattle.rules.specs.Branches.{decompose_wide_bodies};
ghost use Rattle.ir.specs.Answer.{answer};
ghost use Rattle.tables.specs.Drawn.{shown, after, Sized};
ghost use Rattle.branches.specs.Layout.{work_words};
ghost use Rattle.decomposition.specs.Decomposing.{Decomposing};
ghost use Rattle.decomposition.specs.Turning.{Listed, Passed, TurnThere, TurnedBy, AllPassed, EndThere};

use crate::{one, place};
use branches::memo::Naming;
use ir::counters::Counters;
use ir::refusal::Refusal;
use tables::read;

// After some clauses: the branches, the atoms so far, and how many bodies are new.
#[derive(Clone, Copy)]
pub struct Progress {
    pub naming: Naming,
    pub atoms: u32,
    pub rewritten: u32,
}

// Clause c, behind the atoms so far. It has two of the lent tables: with all of them it would say again what it leaves alone.
pub fn turn(
    scratch: &mut [u8],
    clauses: &mut [u8],
    atoms: &mut [u8],
    p: Progress,
    c: u32,
) -> Result<Progress, Refusal>
    requires { TurnThere (words scratch.old) (words clauses.old) (words atoms.old) p.naming c p.atoms p.rewritten × (4 * work_words ≤ length scratch.old) × Sized (length clauses.old) (length atoms.old) 0 }
    ensures { (l : List Clause) (fresh : ℕ) (c₀ a₀ : List ℕ) → Listed l fresh c₀ a₀ → c < length l → Passed l fresh c₀ a₀ (words scratch.old) (words clauses.old) (words atoms.old) p.naming c p.atoms p.rewritten → TurnedBy l fresh c₀ a₀ (words scratch.new) (words clauses.new) (words atoms.new) c result }
{
    let first = read::first_atom(clauses, c) as usize;
    let nb = read::body_count(clauses, c);
    let nh = read::head_count(clauses, c);
    let body = read::body_of(clauses, atoms, c);
    let head = read::head_of(clauses, atoms, c);
    let to = p.atoms;
    match one::decompose_one(scratch, body, head, p.naming)? {
        Some((naming, n)) => {
            let from = first + nb as usize;
            place::put_rewritten(scratch, clauses, atoms, c, n, from, nh, to);
            let body_end = to + n;
            let atoms = body_end + nh;
            let rewritten = p.rewritten + 1;
            Ok(Progress {
                naming,
                atoms,
                rewritten,
            })
        }
        None => {
            let count = nb + nh;
            place::put_whole(clauses, atoms, c, first, count, to);
            let atoms = to + count;
            Ok(Progress { atoms, ..p })
        }
    }
}

// The branches behind the clauses, and zeros behind them; how many bodies are new.
pub fn finish(
    clauses: &mut [u8],
    atoms: &mut [u8],
    k: &mut Counters,
    scratch: &[u8],
    p: Progress,
) -> Result<u32, Refusal>
    requires { EndThere k.old (words scratch.now) (words clauses.old) (words atoms.old) p.naming p.atoms p.rewritten × (4 * work_words ≤ length scratch.now) × Sized (length clauses.old) (length atoms.old) 0 }
    ensures { (c₀ a₀ : List ℕ) (D : Decomposing k.old c₀ a₀) → AllPassed k.old c₀ a₀ D (words scratch.now) (words clauses.old) (words atoms.old) p.naming p.atoms p.rewritten → after (answer k.new result) (words clauses.new) (words atoms.new) D.deferrals ≡ shown (λ n. n) k.old D.env.rooms (decompose_wide_bodies D.env D.state) }
{
    let s = p.naming;
    let to = p.atoms;
    let last = k.clauses + s.named;
    let end = to + s.used;
    if read::clause_room(clauses) < last as usize {
        return Err(Refusal::NoRoom);
    }
    if read::atom_room(atoms) < end as usize {
        return Err(Refusal::NoRoom);
    }
    place::put_named(scratch, clauses, atoms, s, k.clauses, to);
    let left = k.atoms.saturating_sub(end);
    words::clear_words(atoms, 6 * (end as usize), 6 * (left as usize));
    k.clauses = last;
    k.atoms = end;
    k.next_class = s.first + s.named;
    Ok(p.rewritten)
}

// clause.rs: ClauseStats.
// Clauses that repeat stay clauses: tables that are read are no `Tables`.
#![tactic(auto)]

ghost use Rattle.std.specs.Prelude.{◌≡◌, List, ◌≤◌, length};
ghost use Rattle.words.specs.Words.{words};
ghost use Rattle.ir.specs.declared.atom.Atom.{Atom};
ghost use Rattle.rules.specs.Base.{any};
ghost use Rattle.rules.specs.State.{Clause};
ghost use Rattle.rules.specs.Run.{most_clauses};
ghost use Rattle.rules.specs.Stats.{clause_stats, is_exists};
ghost use Rattle.tables.specs.Drawn.{Sized};
ghost use Rattle.tables.specs.Tabled.{Tabled, TableThere, Run};
ghost use Rattle.statistics.specs.Counted.{stats_of};
ghost use Rattle.statistics.specs.Counting.{counted, Within};

use branches::atom::EXISTS;
use branches::{atom, vars};
use tables::read;

// In the Rust's order.
#[derive(Clone, Copy, Default)]
pub struct ClauseStats {
    pub total: u32,
    pub horn: u32,
    pub disjunctive: u32,
    pub bottom_headed: u32,
    pub with_exists_head: u32,
    pub deferred: u32,
    pub decomposed: u32,
    pub refused: u32,
}

// One of the atoms is Exists.
fn has_exists(head: &[u8]) -> bool
    ensures { (l : List Atom) → Run head.now l → result ≡ any is_exists l }
{
    (0..read::atom_room(head)).any(|i| atom::kind(head, i) == EXISTS)
}

impl ClauseStats {
    // A clause more.
    fn add(mut self, body: &[u8], head: &[u8]) -> ClauseStats
        requires { Within most_clauses self }
        ensures { (x : Clause) → Run body.now x.body → Run head.now x.head → stats_of result ≡ counted x (stats_of self) }
    {
        let nh = read::atom_room(head);
        let exists = has_exists(head);
        let wide = vars::is_wide(body, 0);
        self.total += 1;
        self.horn += u32::from(nh <= 1);
        self.disjunctive += u32::from(1 < nh);
        self.bottom_headed += u32::from(nh == 0);
        self.with_exists_head += u32::from(exists);
        self.refused += u32::from(wide);
        self
    }
}

// Of the first n clauses, so many deferrals and so many rewritten bodies. (A loop: `add` asks that the counts be small, which the closure
// of a `fold` would ask for in a clause of its own.)
pub fn clause_stats(
    clauses: &[u8],
    atoms: &[u8],
    n: u32,
    deferred: u32,
    decomposed: u32,
) -> ClauseStats
    requires { TableThere (words clauses.now) (words atoms.now) n × Sized (length clauses.now) (length atoms.now) 0 }
    ensures { (l : List Clause) → Tabled (words clauses.now) (words atoms.now) n l → stats_of result ≡ clause_stats l deferred decomposed }
{
    let mut s = ClauseStats {
        deferred,
        decomposed,
        ..ClauseStats::default()
    };
    for i in 0..n {
        let body = read::body_of(clauses, atoms, i);
        let head = read::head_of(clauses, atoms, i);
        s = s.add(body, head);
    }
    s
}

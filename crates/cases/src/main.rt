// Runs document 01's layout cases that are not marked [P], and prints a row for each, every number right-justified in 11 columns: the
// case; the refusal's number, 0 where there is none; clauses; how many different ones of the clauses that are due are among them; fresh
// ids; deferrals, and line and kind of the first, 0 without one; decomposed bodies.
// 1, 2: an Or of 64 classes, and of 65, below a class B. Due is A(X) → B(X) for each of the 64; of the 65 q(X) A(X) → nothing for
//    each, then nothing → B(X) q(X).
// 3, 4: an And of two Ors of 8 classes, and of 9. Due is A(X) A'(X) → B(X) for each pair; of 9 nothing.
// 5, 6: with option 1 an And of 7 Somes, and of 8. Due is r(X,1) A(1) r(X,2) A'(2) .. → B(X); of 8 q(X) q'(X) .. → B(X), then
//    r(X,1) A(1) → q(X) for each.
// 7, 8, 9: r reflexive and an And of 12 Somes over r below B, which unfolds in 4,095 ways; beside it one Some below B, the 4,096th. In 8
//    it is there twice, and the one that is unfolded last gives nothing new; in 9 there are three, so that two new clauses are too
//    many. Due are the inclusions' own clauses and what they unfold to.
#![tactic(auto)]

mod decks;
mod forms;

ghost use Rattle.std.specs.Prelude.{◌≤◌, length};

use clausify::numbers::Numbers;
use std::io;

// What is printed, so that no refusal is 0 here too.
#[derive(Clone, Copy, Default)]
struct Row {
    refused: u32,
    clauses: u32,
    due: u32,
    fresh: u32,
    deferrals: u32,
    line: u32,
    kind: u32,
    decomposed: u32,
}

fn refused(number: u32) -> Row {
    Row {
        refused: number,
        ..Row::default()
    }
}

// What a run is lent, beside the deck.
#[derive(Drop)]
struct Space<'a> {
    clauses: &'a mut [u8],
    atoms: &'a mut [u8],
    deferrals: &'a mut [u8],
    scratch: &'a mut [u8],
}

fn accepted(s: &Space, case: u32, n: Numbers) -> Row {
    let mut met = [false; 5000];
    Row {
        refused: 0,
        clauses: n.stats.total,
        due: forms::count(s.clauses, s.atoms, case, n.stats.total, &mut met),
        fresh: n.fresh_ids,
        deferrals: n.stats.deferred,
        line: words::word_or_zero(s.deferrals, 0),
        kind: words::word_or_zero(s.deferrals, 1),
        decomposed: n.stats.decomposed,
    }
}

fn run_case(case: u32, deck: &[u8], s: &mut Space) -> Row {
    match clausify::clausify_with_stats(deck, s.clauses, s.atoms, s.deferrals, s.scratch) {
        Ok(n) => accepted(s, case, n),
        Err(e) => refused(e.refusal.number()),
    }
}

// From byte `at` on; where it ends.
fn put_row(out: &mut [u8], at: usize, case: u32, w: Row) -> usize {
    let numbers = [
        case,
        w.refused,
        w.clauses,
        w.due,
        w.fresh,
        w.deferrals,
        w.line,
        w.kind,
        w.decomposed,
    ];
    decks::line(out, at, &numbers)
}

// The rows' bytes.
fn run_cases(deck: &mut [u8], s: &mut Space, out: &mut [u8]) -> usize
    ensures { result ≤ length out.new }
{
    let mut p: usize = 0;
    for case in 1..10 {
        let n = decks::deck(deck, case);
        let w = run_case(case, &deck[..n], s);
        p = put_row(out, p, case, w);
    }
    p.min(out.len())
}

fn main(rt: HostRuntime) -> io::Result<()> {
    let mut deck = streams::zeros::<4096>();
    // 4,200 clauses, 80,000 atoms, 16 deferrals
    let mut clauses = streams::zeros::<50400>();
    let mut atoms = streams::zeros::<1920000>();
    let mut deferrals = streams::zeros::<128>();
    let mut scratch = streams::zeros::<1572864>();
    let mut out = streams::zeros::<1200>();
    let mut space = Space {
        clauses: &mut clauses,
        atoms: &mut atoms,
        deferrals: &mut deferrals,
        scratch: &mut scratch,
    };
    let n = run_cases(&mut deck, &mut space, &mut out);
    rt.write_all(&out[..n])
}

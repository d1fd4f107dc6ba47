// Prints the clauses of the deck on standard input as they are after its axioms and before the later passes, for the comparison with
// the Rust. Every number is right-justified in 11 columns, and a line feed ends each line. Of an accepted deck:
// - for each clause 41, its number, the numbers of body and head atoms, then for each atom 42 and its six words;
// - for each deferral 45, line, kind;
// - 44, clauses, atoms, deferrals, the next fresh class, visits, concepts, list members.
// A refusal prints only 49, number, line.
#![tactic(auto)]

mod lines;
mod stage;

use std::io;

fn main(rt: HostRuntime) -> io::Result<()> {
    // one byte more than a deck may have
    let mut deck = streams::zeros::<65537>();
    let (n, _) = streams::fill(&mut rt.stdin(), &mut deck);
    let mut scratch = streams::zeros::<1572864>();
    // 1,024 clauses, 2,048 atoms, 256 deferrals, as the lister lends
    let mut clauses = streams::zeros::<12288>();
    let mut atoms = streams::zeros::<49152>();
    let mut deferrals = streams::zeros::<2048>();
    // the longest text
    let mut out = streams::zeros::<214617>();
    let m = stage::put_stage(
        &deck[..n],
        &mut scratch,
        &mut clauses,
        &mut atoms,
        &mut deferrals,
        &mut out,
    );
    rt.write_all(&out[..m])
}

// The lister: prints the clauses of the deck on standard input. Every number is right-justified in 11 columns, and a line feed ends
// each line. Of an accepted deck:
// - for each clause 41, its number, the numbers of body and head atoms, then for each atom 42 and its six words;
// - 43, the statistics, fresh ids, visits.
// A refusal prints only 49, number, line.
#![tactic(auto)]

mod input;
mod lines;

use std::io;

fn main(rt: HostRuntime) -> io::Result<()> {
    // one byte more than a deck may have
    let mut deck = streams::zeros::<65537>();
    let (n, _) = streams::fill(&mut rt.stdin(), &mut deck);
    // 1,024 clauses, 2,048 atoms, 256 deferrals
    let mut clauses = streams::zeros::<12288>();
    let mut atoms = streams::zeros::<49152>();
    let mut deferrals = streams::zeros::<2048>();
    let mut scratch = streams::zeros::<1572864>();
    // the longest listing
    let mut out = streams::zeros::<205946>();
    let m = input::list_input(
        &deck,
        n,
        &mut clauses,
        &mut atoms,
        &mut deferrals,
        &mut scratch,
        &mut out,
    );
    rt.write_all(&out[..m])
}

// Prints what the reader and the normal form make of the deck on standard input, for the comparison with the Rust. Every number is
// right-justified in 11 columns, and a line feed ends each line. Of an accepted deck:
// - a line for each concept of the pool, by its id: kind, role code, number and child of its record (0 where unused); of And and Or
//   the kind, then the members;
// - a line for each axiom, in the deck's order: its numbers, as a deck has them, the concepts normalised;
// - 44, visits, concepts, list members.
// A refusal prints only 49, number, line.
#![tactic(auto)]

mod forms;
mod lines;

use std::io;

fn main(rt: HostRuntime) -> io::Result<()> {
    // one byte more than a deck may have
    let mut deck = streams::zeros::<65537>();
    let (n, _) = streams::fill(&mut rt.stdin(), &mut deck);
    // scratch up to the regions of the passes that come later
    let mut scratch = streams::zeros::<324000>();
    // the longest text
    let mut out = streams::zeros::<341037>();
    let m = forms::put_forms(&deck[..n], &mut scratch, &mut out);
    rt.write_all(&out[..m])
}

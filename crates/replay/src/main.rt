// Runs the decks on standard input and compares each reply, and every record of the lent tables, with the answer of the Rust that
// is stored there. Prints one row, every number right-justified in 11 columns: decks, accepted, refused, differences.
// Standard input is numbers in base 128, the low digit first and 128 added to every digit but the last: the number of decks, and for
// each deck the bytes that are behind this number and its own, then
// - the number of its lines; for each line twice the count of its numbers, and these; or, where it is not numbers in their columns,
//   twice the count of its bytes plus 1, and these;
// - its refusal's number and line; or 0, the ten numbers of the listing's last line, the body and head count of each clause, the
//   words of each atom, line and kind of each deferral in the Rust's order. An atom is 32 times its kind plus a bit for each of its
//   other five words that is not 0 (1 for the role, .. 16 for the second variable), then these words.
#![tactic(auto)]

mod answer;
mod data;
mod decks;

use std::{io, num};

#[derive(Clone, Copy, Default)]
struct Sums {
    decks: u32,
    accepted: u32,
    refused: u32,
    differences: u32,
}

impl Sums {
    fn add(mut self, is_accepted: bool, same: bool) -> Sums {
        self.decks = num::wrapping_add_u32(self.decks, 1);
        self.accepted = num::wrapping_add_u32(self.accepted, u32::from(is_accepted));
        self.refused = num::wrapping_add_u32(self.refused, u32::from(!is_accepted));
        self.differences = num::wrapping_add_u32(self.differences, u32::from(!same));
        self
    }

    // The data and scratch are as they should be at the end.
    fn end(mut self, good: bool) -> Sums {
        self.differences = num::wrapping_add_u32(self.differences, u32::from(!good));
        self
    }
}

// A deck whose answer stands from byte `at` to `end` of the data.
fn run_deck(
    deck: &[u8],
    data: &[u8],
    at: usize,
    end: usize,
    sums: Sums,
    clauses: &mut [u8],
    atoms: &mut [u8],
    deferrals: &mut [u8],
    scratch: &mut [u8],
) -> Sums {
    match clausify::clausify_with_stats(deck, clauses, atoms, deferrals, scratch) {
        Ok(n) => {
            let same = answer::is_accepted(data, at, end, n, clauses, atoms, deferrals);
            sums.add(true, same)
        }
        Err(e) => {
            let same = answer::is_refused(data, at, end, e, clauses, atoms, deferrals);
            sums.add(false, same)
        }
    }
}

// Where something of so many bytes ends.
fn end_of(at: usize, bytes: u32) -> usize {
    at.saturating_add(bytes as usize)
}

// n decks from byte `from` of the data on.
fn run_decks(
    data: &[u8],
    from: usize,
    n: u32,
    deck: &mut [u8],
    clauses: &mut [u8],
    atoms: &mut [u8],
    deferrals: &mut [u8],
    scratch: &mut [u8],
) -> Sums {
    let mut sums = Sums::default();
    let mut at = from;
    for _ in 0..n {
        if data.len() <= at {
            break;
        }
        let x = data::number(data, at);
        let end = end_of(x.at, x.value);
        let p = decks::put_deck(data, x.at, deck);
        let m = p.end;
        sums = run_deck(
            &deck[..m],
            data,
            p.at,
            end,
            sums,
            clauses,
            atoms,
            deferrals,
            scratch,
        );
        at = end;
    }
    sums.end(at == data.len() && answer::is_clear(scratch, 0))
}

fn run_data(
    data: &[u8],
    deck: &mut [u8],
    clauses: &mut [u8],
    atoms: &mut [u8],
    deferrals: &mut [u8],
    scratch: &mut [u8],
) -> Sums {
    let x = data::number(data, 0);
    run_decks(
        data, x.at, x.value, deck, clauses, atoms, deferrals, scratch,
    )
}

fn main(rt: HostRuntime) -> io::Result<()> {
    let mut input = streams::zeros::<1600000>();
    let (n, _) = streams::fill(&mut rt.stdin(), &mut input);
    // more than a deck may have
    let mut deck = streams::zeros::<70000>();
    // 1,024 clauses, 2,048 atoms, 256 deferrals, as the lister lends
    let mut clauses = streams::zeros::<12288>();
    let mut atoms = streams::zeros::<49152>();
    let mut deferrals = streams::zeros::<2048>();
    let mut scratch = streams::zeros::<1572864>();
    let s = run_data(
        &input[..n],
        &mut deck,
        &mut clauses,
        &mut atoms,
        &mut deferrals,
        &mut scratch,
    );
    let mut out = [0u8; 45];
    rows::put_line(
        &mut out,
        0,
        &[s.decks, s.accepted, s.refused, s.differences],
    );
    rt.write_all(&out)
}

// clause.rs: clausify_axiom over all axioms, in the deck's order; with option 4 each with the limits that it names.
// Clauses that repeat stay clauses: `Clausifying` is about one moment of what is lent; a type with a number's bound would be made at each
// read and opened at each use.
#![tactic(auto)]

pub mod axiom;
pub mod prepare;
pub mod settle;
pub mod whole;

ghost use Rattle.std.specs.Prelude.{◌+◌, ◌≤◌, length};
ghost use Rattle.words.specs.Words.{words};
ghost use Rattle.hands.specs.Hands.{four_of};
ghost use Rattle.axioms.specs.Wholes.{Clausifying};
ghost use Rattle.clausifier.specs.Arms.{AxiomsOf};
ghost use Rattle.clausifier.specs.All.{ReadyForAll, ClausifiedAll, ClausifyingLined};
ghost use Rattle.ir.specs.Lined.{lined};
ghost use Rattle.tables.specs.Lending.{SameReferences};

use ir::answer::Refused;
use tables::lent::Tables;

// The first axiom is on line `line`.
pub fn clausify_axioms(
    lent: &mut Tables<'_>,
    scratch: &mut [u8],
    n: u32,
    line: u32,
) -> Result<(), Refused>
    requires { Clausifying scratch.old lent.old.counters × AxiomsOf (words scratch.old) lent.old.counters n × ReadyForAll n lent.old.counters (four_of (words scratch.old) lent.old) × (line ≤ 65536) }
    ensures references { SameReferences lent.old lent.new }
    ensures fact { let old = four_of (words scratch.old) lent.old in
        let new = four_of (words scratch.new) lent.new in
        ClausifiedAll n line lent.old.counters old new (lined lent.new.counters result) }
    ensures clausifying_lined { ClausifyingLined scratch.new (lined lent.new.counters result) }
{
    for i in 0..n {
        let here = line + i;
        lent.counters.at_line(here);
        whole::clausify_whole(lent, scratch, i).map_err(|refusal| Refused {
            refusal,
            line: here,
        })?;
    }
    Ok(())
}

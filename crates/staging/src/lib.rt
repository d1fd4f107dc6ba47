// From a deck that was read to its clauses, before the later passes.
#![tactic(auto)]

ghost use Rattle.std.specs.Prelude.{length};
ghost use Rattle.words.specs.Words.{words};
ghost use Rattle.rules.specs.State.{Rooms};
ghost use Rattle.clausifier.specs.Prepare.{Preparing};
ghost use Rattle.staging.specs.Stage.{StagedAs, Blank};
ghost use Rattle.ir.specs.Lined.{lined};
ghost use Rattle.tables.specs.Lending.{SameReferences};

use clausifier::prepare;
use ir::answer::Refused;
use tables::lent::Tables;

// The deck stands in scratch, and the lent tables are zeros; on a refusal they hold what was made so far.
pub fn clausify_deck(lent: &mut Tables<'_>, scratch: &mut [u8], n: u32) -> Result<(), Refused>
    requires { Preparing scratch.old lent.old.counters n × ((rooms : Rooms) × Blank rooms (words lent.old.clauses.now) (words lent.old.atoms.now) (words lent.old.deferrals.now)) }
    ensures references { SameReferences lent.old lent.new }
    ensures did { (P : Preparing scratch.old lent.old.counters n) (rooms : Rooms) → Blank rooms (words lent.old.clauses.now) (words lent.old.atoms.now) (words lent.old.deferrals.now) → StagedAs P.limit rooms P.known scratch.new n (words lent.new.clauses.now) (words lent.new.atoms.now) (words lent.new.deferrals.now) (lined lent.new.counters result) }
{
    let line = lent.counters.line;
    prepare::prepare(scratch, &mut lent.counters, n)?;
    clausifier::clausify_axioms(lent, scratch, n, line)
}

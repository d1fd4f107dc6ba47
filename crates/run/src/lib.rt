// clausify_with_stats but for its statistics, on lent tables of zeros.
// Clauses that repeat stay clauses: each function asks for the length that it reads.
#![tactic(auto)]

ghost use Rattle.std.specs.Prelude.{◌≤◌, length};
ghost use Rattle.words.specs.Words.{words};
ghost use Rattle.rules.specs.State.{Rooms};
ghost use Rattle.rules.specs.Deck.{read_deck};
ghost use Rattle.rules.specs.Run.{run_deck, run_read, scratch_bytes};
ghost use Rattle.tables.specs.Drawn.{Sized};
ghost use Rattle.clausifier.specs.Prepare.{Preparing};
ghost use Rattle.staging.specs.Stage.{Blank};
ghost use Rattle.run.specs.Ran.{RanAs};
ghost use Rattle.run.specs.Before.{Before};
ghost use Rattle.tables.specs.Lending.{SameReferences};

use ir::answer::Refused;
use ir::counters::Counters;
use ontology::load;
use tables::lent::Tables;

// The counters at the end, the first fresh class and the number of decomposed bodies.
#[derive(Clone, Copy)]
pub struct Ran {
    pub counters: Counters,
    pub first: u32,
    pub decomposed: u32,
}

// The passes after the last axiom; their refusals have line 0. (Tried with `?` by the From of `Refused`: it proves, but the wrong program of
// another line is then refused at no fact of its own.)
fn run_late(lent: &mut Tables<'_>, scratch: &mut [u8], n: u32, first: u32) -> Result<Ran, Refused>
    requires { Before scratch.old lent.old.counters n first (words lent.old.clauses.now) (words lent.old.atoms.now) (words lent.old.deferrals.now) }
    ensures references { SameReferences lent.old lent.new }
    ensures did { (B : Before scratch.old lent.old.counters n first (words lent.old.clauses.now) (words lent.old.atoms.now) (words lent.old.deferrals.now)) → RanAs B.rooms (run_deck B.limit B.rooms B.known) (words lent.new.clauses.now) (words lent.new.atoms.now) (words lent.new.deferrals.now) result }
{
    lent.counters.at_line(0);
    let decomposed = late::late_passes(lent, scratch, n).map_err(|refusal| Refused {
        refusal,
        line: 0,
    })?;
    Ok(Ran {
        counters: lent.counters,
        first,
        decomposed,
    })
}

// The run of a deck that was read.
fn run_loaded(lent: &mut Tables<'_>, scratch: &mut [u8], n: u32) -> Result<Ran, Refused>
    requires { Preparing scratch.old lent.old.counters n × (scratch_bytes ≤ length scratch.old) × ((rooms : Rooms) × Blank rooms (words lent.old.clauses.now) (words lent.old.atoms.now) (words lent.old.deferrals.now)) }
    ensures references { SameReferences lent.old lent.new }
    ensures did { (P : Preparing scratch.old lent.old.counters n) (rooms : Rooms) → Blank rooms (words lent.old.clauses.now) (words lent.old.atoms.now) (words lent.old.deferrals.now) → RanAs rooms (run_deck P.limit rooms P.known) (words lent.new.clauses.now) (words lent.new.atoms.now) (words lent.new.deferrals.now) result }
{
    let first = lent.counters.next_class;
    staging::clausify_deck(lent, scratch, n)?;
    run_late(lent, scratch, n, first)
}

// The deck's run under a limit of visits, in tables of zeros; on a refusal the tables hold what was made so far. The tables are
// slices each by itself, as the C interface lends them; what they are behind it is `Tables`.
pub fn run(
    deck: &[u8],
    scratch: &mut [u8],
    clauses: &mut [u8],
    atoms: &mut [u8],
    deferrals: &mut [u8],
    limit: u32,
) -> Result<Ran, Refused>
    requires { (limit ≤ 1000000) × (scratch_bytes ≤ length scratch.old) × ((rooms : Rooms) × Blank rooms (words clauses.old) (words atoms.old) (words deferrals.old)) × Sized (length clauses.old) (length atoms.old) (length deferrals.old) }
    ensures { (rooms : Rooms) → Blank rooms (words clauses.old) (words atoms.old) (words deferrals.old) → RanAs rooms (run_read limit rooms (read_deck deck.now)) (words clauses.new) (words atoms.new) (words deferrals.new) result }
{
    let (counters, n) = load::load(deck, scratch, limit)?;
    let mut lent = Tables {
        clauses,
        atoms,
        deferrals,
        counters,
    };
    run_loaded(&mut lent, scratch, n)
}

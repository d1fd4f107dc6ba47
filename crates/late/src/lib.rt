// clause.rs: the passes after the last axiom.
// Clauses that repeat stay clauses: each function asks for the length that it reads; tables that are read are no `Tables`.
#![tactic(auto)]

ghost use Rattle.std.specs.Prelude.{◌≡◌, ◌*◌, ◌≤◌, length};
ghost use Rattle.words.specs.Words.{words};
ghost use Rattle.ir.specs.Options.{body_decompose};
ghost use Rattle.rules.specs.Run.{reflexive_passes, decomposition, late_passes};
ghost use Rattle.tables.specs.Drawn.{shown, after, Sized};
ghost use Rattle.branches.specs.Layout.{work_words};
ghost use Rattle.decomposition.specs.Decomposing.{Decomposing};
ghost use Rattle.late.specs.Flagged.{Flagged};
ghost use Rattle.late.specs.Later.{Later};
ghost use Rattle.ir.specs.Answer.{answer, done};
ghost use Rattle.tables.specs.Lending.{SameReferences};

use counted::loops;
use ir::counters::Counters;
use ir::options;
use ir::refusal::Refusal;
use reflexive::ids;
use tables::lent::Tables;
use unfolding::unfold;

// Nothing is reflexive in a set of none.
fn reflexive_passes(lent: &mut Tables<'_>, scratch: &mut [u8], size: u32) -> Result<(), Refusal>
    requires { Flagged scratch.old lent.old.counters size (words lent.old.clauses.now) (words lent.old.atoms.now) (words lent.old.deferrals.now) }
    ensures references { SameReferences lent.old lent.new }
    ensures did { (F : Flagged scratch.old lent.old.counters size (words lent.old.clauses.now) (words lent.old.atoms.now) (words lent.old.deferrals.now)) → after (done lent.new.counters result) (words lent.new.clauses.now) (words lent.new.atoms.now) (words lent.new.deferrals.now) ≡ shown (λ _. 0) lent.old.counters F.env.rooms (reflexive_passes F.env F.set F.state) }
{
    if size == 0 {
        return Ok(());
    }
    unfold::apply_reflexive_roles(lent, scratch)?;
    loops::add_counted_self_loops(lent.clauses, lent.atoms, &mut lent.counters, scratch)
}

// Only with its option; answers how many bodies were decomposed. It never defers: with all tables it would say again what it leaves alone.
fn decomposed(
    clauses: &mut [u8],
    atoms: &mut [u8],
    k: &mut Counters,
    scratch: &mut [u8],
) -> Result<u32, Refusal>
    requires { Decomposing k.old (words clauses.old) (words atoms.old) × (4 * work_words ≤ length scratch.old) × Sized (length clauses.old) (length atoms.old) 0 }
    ensures { (D : Decomposing k.old (words clauses.old) (words atoms.old)) → after (answer k.new result) (words clauses.new) (words atoms.new) D.deferrals ≡ shown (λ n. n) k.old D.env.rooms (decomposition D.env (body_decompose k.old.options) D.state) }
{
    if !options::body_decompose(k.options) {
        return Ok(0);
    }
    decomposition::decompose_wide_bodies(clauses, atoms, k, scratch)
}

// Of the n axioms in scratch; answers how many bodies were decomposed.
pub fn late_passes(lent: &mut Tables<'_>, scratch: &mut [u8], n: u32) -> Result<u32, Refusal>
    requires { Later scratch.old lent.old.counters n (words lent.old.clauses.now) (words lent.old.atoms.now) (words lent.old.deferrals.now) }
    ensures references { SameReferences lent.old lent.new }
    ensures did { (L : Later scratch.old lent.old.counters n (words lent.old.clauses.now) (words lent.old.atoms.now) (words lent.old.deferrals.now)) → after (answer lent.new.counters result) (words lent.new.clauses.now) (words lent.new.atoms.now) (words lent.new.deferrals.now) ≡ shown (λ m. m) lent.old.counters L.env.rooms (late_passes L.env L.axioms (body_decompose lent.old.counters.options) L.state) }
{
    let size = ids::reflexive_role_ids(scratch, n);
    reflexive_passes(lent, scratch, size)?;
    decomposed(lent.clauses, lent.atoms, &mut lent.counters, scratch)
}

// clause.rs: decompose_wide_bodies.
// Clauses that repeat stay clauses: each function asks for the length that it reads; tables that are read are no `Tables`.
#![tactic(auto)]

pub mod one;
pub mod place;
mod turn;

ghost use Rattle.std.specs.Prelude.{◌≡◌, ◌*◌, ◌≤◌, length};
ghost use Rattle.words.specs.Words.{words};
ghost use Rattle.ir.specs.Answer.{answer};
ghost use Rattle.rules.specs.Branches.{decompose_wide_bodies};
ghost use Rattle.tables.specs.Drawn.{shown, after, Sized};
ghost use Rattle.branches.specs.Layout.{work_words};
ghost use Rattle.decomposition.specs.Decomposing.{Decomposing};

use crate::turn::Progress;
use branches::filter;
use branches::memo::Naming;
use ir::counters::Counters;
use ir::refusal::Refusal;

// Each clause with its new body, then the branches as clauses; answers how many bodies are new. The tables' ends are tested once,
// on the finished list.
pub fn decompose_wide_bodies(
    clauses: &mut [u8],
    atoms: &mut [u8],
    k: &mut Counters,
    scratch: &mut [u8],
) -> Result<u32, Refusal>
    requires { Decomposing k.old (words clauses.old) (words atoms.old) × (4 * work_words ≤ length scratch.old) × Sized (length clauses.old) (length atoms.old) 0 }
    ensures { (D : Decomposing k.old (words clauses.old) (words atoms.old)) → after (answer k.new result) (words clauses.new) (words atoms.new) D.deferrals ≡ shown (λ n. n) k.old D.env.rooms (decompose_wide_bodies D.env D.state) }
{
    filter::clear(scratch);
    let naming = Naming {
        first: k.next_class,
        named: 0,
        used: 0,
    };
    let mut p = Progress {
        naming,
        atoms: 0,
        rewritten: 0,
    };
    for c in 0..k.clauses {
        p = turn::turn(scratch, clauses, atoms, p, c)?;
    }
    turn::finish(clauses, atoms, k, scratch, p)
}

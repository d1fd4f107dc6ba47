// From a deck that was read to the state before the first clause.
ghost use Rattle.clausifier.specs.Prepare.{Preparing, PreparedAs};
ghost use Rattle.ir.specs.Lined.{lined};

use inverse::build;
use ir::answer::Refused;
use ir::counters::Counters;
use ir::options;
use normalize::forms;

// The axioms become their normal forms; then the role map, with option 8 followed, and the rows of the antecedents. The counters are those before the first axiom.
pub fn prepare(scratch: &mut [u8], k: &mut Counters, n: u32) -> Result<(), Refused>
    requires { Preparing scratch.old k.old n }
    ensures { (P : Preparing scratch.old k.old n) → PreparedAs P.known P.limit scratch.new n (lined k.new result) }
{
    let line = k.line;
    forms::nnf_axioms(scratch, k, n, line)?;
    build::build_inverse_canon(scratch, n, options::follow_roles(k.options));
    antecedents::number_alternatives(scratch, *k, 0);
    k.at_line(0);
    Ok(())
}

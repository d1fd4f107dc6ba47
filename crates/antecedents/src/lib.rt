// clause.rs: encode_antecedent, without lists of lists.
// A concept and a variable stay two numbers, as the rules have them; so do the variable, the next one and an alternative's number.
// Clauses that repeat stay clauses: each function asks for the length that it reads; `Good` and `Ready` are about one moment of what is
// lent; a type with a number's bound would be made at each read and opened at each use.
#![tactic(auto)]

pub mod count;
pub mod numbers;
pub mod table;
pub mod write;

ghost use Rattle.std.specs.Prelude.{◌≡◌, ℕ, ◌+◌, ◌*◌, ◌<◌, ◌≤◌, length, OnErr};
ghost use Rattle.words.specs.Words.{words};
ghost use Rattle.ir.specs.Scratch.{axioms_at, hands_at};
ghost use Rattle.rules.specs.State.{Env, Out};
ghost use Rattle.rules.specs.Antecedents.{encode_by};
ghost use Rattle.pool.specs.Layout.{pool_of};
ghost use Rattle.pool.specs.Held.{Ready};
ghost use Rattle.tables.specs.Good.{Good};
ghost use Rattle.antecedents.specs.States.{Counted, summary};
ghost use Rattle.antecedents.specs.Counts.{GoodEncoded};
ghost use Rattle.antecedents.specs.Table.{Numbered, Outside};
ghost use Rattle.antecedents.specs.Writes.{Named, Written};
ghost use Rattle.ir.specs.Encoded.{encoded};

use ir::answer::Alternatives;
use ir::counters::Counters;
use ir::refusal::Refusal;

// How many alternatives an antecedent has, and the longest one's length. A refusal leaves the counters as they were.
pub fn encode_antecedent(
    scratch: &[u8],
    k: &mut Counters,
    c: u32,
) -> Result<Option<Alternatives>, Refusal>
    requires { Ready scratch.now k.old × (c < k.old.concepts) × Good k.old }
    ensures { ((env : Env) (f v : ℕ) (s : Out) → c < f → Counted k.old s → (encoded k.new result) ≡ summary k.old (encode_by env (pool_of (words scratch.now) k.old.concepts) f c v s)) × GoodEncoded (encoded k.new result) × OnErr result (k.new ≡ k.old) }
{
    let mut counted = *k;
    let found = count::encode_antecedent(scratch, &mut counted, c)?;
    *k = counted;
    Ok(found)
}

// Fills the rows of the concepts from `from` on.
pub fn number_alternatives(scratch: &mut [u8], k: Counters, from: u32)
    requires { Ready scratch.old k × (4 * axioms_at ≤ length scratch.old) × (from ≤ k.concepts) × Numbered (words scratch.old) (pool_of (words scratch.old) k.concepts) from }
    ensures { Numbered (words scratch.new) (pool_of (words scratch.old) k.concepts) k.concepts × Outside (words scratch.old) (words scratch.new) }
{
    for c in from..k.concepts {
        let r = table::row_of(scratch, c);
        table::put_row(scratch, c, r);
    }
}

// Writes the i-th alternative of an antecedent, whose fresh variables begin with y, from record `base` on. Answers the next record.
pub fn write_alternative(
    scratch: &mut [u8],
    k: Counters,
    base: usize,
    c: u32,
    v: u32,
    y: u32,
    i: u32,
) -> usize
    requires { Ready scratch.old k × Numbered (words scratch.old) (pool_of (words scratch.old) k.concepts) k.concepts × Named (pool_of (words scratch.old) k.concepts) k.nominal_base × (c < k.concepts) × (hands_at ≤ 6 * base) × (24 * (base + 256) ≤ length scratch.old) }
    ensures { Written (words scratch.old) k base c v y i (words scratch.new) result }
{
    write::write_one(scratch, k.nominal_base, base, c, v, y, i)
}

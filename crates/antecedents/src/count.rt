// How many alternatives there are, and the longest one's length; visits and variables as the Rust takes them.
// Clauses that repeat stay clauses: `Good`, `HasList` and `Stands` are about one moment of what is lent.
ghost use Rattle.words.specs.Words.{words};
ghost use Rattle.ir.specs.Encoded.{Found};
ghost use Rattle.tables.specs.Good.{Good};
ghost use Rattle.antecedents.specs.Counts.{is_conj, first_of};
ghost use Rattle.antecedents.specs.Stands.{Stands, HasList, Counts, CountsList};
ghost use Rattle.ir.specs.Encoded.{encoded};

use crate::numbers;
use ir::answer::Alternatives;
use ir::counters::Counters;
use ir::refusal::Refusal;
use pool::joint::Joint;
use pool::{layout, record};

// One alternative: of no atom, and of one.
const TOP: Alternatives = Alternatives {
    count: 1,
    longest: 0,
};

const CLASS: Alternatives = Alternatives {
    count: 1,
    longest: 1,
};

// The parts of c's list, in order. A loop: try_fold's closure would change the counters and call back into the
// cycle, with a contract of its own, and say in one type what is refused and what has no alternatives.
#[cycle(encode_antecedent_encode_parts)]
fn encode_parts(
    scratch: &[u8],
    k: &mut Counters,
    c: u32,
    joint: Joint,
) -> Result<Option<Alternatives>, Refusal>
    requires { Stands scratch.now c × HasList (words scratch.now) c × Good k.old }
    ensures { CountsList (words scratch.now) (is_conj joint) c (Found k.old (first_of (is_conj joint)) 0) (encoded k.new result) }
{
    let start = record::child(scratch, c);
    let mut acc = Alternatives {
        count: numbers::first(joint),
        longest: 0,
    };
    for i in 0..record::number(scratch, c) {
        let x = record::member(scratch, start + i);
        let Some(part) = encode_antecedent(scratch, k, x)? else {
            return Ok(None);
        };
        let Some(more) = numbers::join_numbers(joint, acc, part)? else {
            return Ok(None);
        };
        acc = more;
    }
    Ok(Some(acc))
}

#[cycle(encode_antecedent_encode_parts)]
pub fn encode_antecedent(
    scratch: &[u8],
    k: &mut Counters,
    c: u32,
) -> Result<Option<Alternatives>, Refusal>
    requires { Stands scratch.now c × Good k.old }
    ensures { Counts (words scratch.now) k.old c (encoded k.new result) }
{
    k.visit()?;
    // By the record's number, as pool's concept_at goes: read as an enum, a word that is none of the twelve would need an arm of its own
    // here.
    match record::kind(scratch, c) {
        layout::TOP => Ok(Some(TOP)),
        layout::ATOMIC | layout::NOMINAL => Ok(Some(CLASS)),
        layout::AND => encode_parts(scratch, k, c, Joint::And),
        layout::OR => encode_parts(scratch, k, c, Joint::Or),
        layout::SOME => {
            k.fresh_var();
            let b = record::child(scratch, c);
            let Some(inner) = encode_antecedent(scratch, k, b)? else {
                return Ok(None);
            };
            Ok(Some(numbers::put_under(inner)?))
        }
        _ => Ok(None),
    }
}

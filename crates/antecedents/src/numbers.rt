// The numbers of combined alternatives.
ghost use Rattle.std.specs.Prelude.{◌≡◌, ◌/◌, ◌%◌, MatchResult};
ghost use Rattle.ir.specs.Encoded.{encoded, Found, Refused};
ghost use Rattle.ir.specs.Refusals.{refusal_number};
ghost use Rattle.ir.specs.declared.counters.Counters.{Counters};
ghost use Rattle.antecedents.specs.Counts.{is_conj, first_of, crossed, listed, joined, under};
ghost use Rattle.antecedents.specs.Table.{join_size};

use ir::answer::Alternatives;
use ir::refusal::Refusal;
use pool::joint::Joint;

// ANTECEDENT_DNF_CAP, and the most atoms of a body in hand.
const CAP: u32 = 64;

const LONGEST: u32 = 256;

// Of every combination.
fn cross_numbers(a: Alternatives, b: Alternatives) -> Result<Option<Alternatives>, Refusal>
    ensures { (k : Counters) → encoded k result ≡ crossed k a.count a.longest b.count b.longest }
{
    let count = a.count.saturating_mul(b.count);
    if count == 0 {
        return Ok(Some(Alternatives {
            count: 0,
            longest: 0,
        }));
    }
    let longest = a.longest.saturating_add(b.longest);
    if LONGEST < longest {
        return Err(Refusal::NoRoom);
    }
    if CAP < count {
        return Ok(None);
    }
    Ok(Some(Alternatives { count, longest }))
}

// Of one list behind the other.
fn list_numbers(a: Alternatives, b: Alternatives) -> Result<Option<Alternatives>, Refusal>
    ensures { (k : Counters) → encoded k result ≡ listed k a.count a.longest b.count b.longest }
{
    let count = a.count.saturating_add(b.count);
    if CAP < count {
        return Ok(None);
    }
    let longest = a.longest.max(b.longest);
    Ok(Some(Alternatives { count, longest }))
}

// How many alternatives no part has: one in an And, none in an Or.
pub fn first(joint: Joint) -> u32
    ensures { result ≡ first_of (is_conj joint) }
{
    match joint {
        Joint::And => 1,
        Joint::Or => 0,
    }
}

// Of a part b more.
pub fn join_numbers(
    joint: Joint,
    a: Alternatives,
    b: Alternatives,
) -> Result<Option<Alternatives>, Refusal>
    ensures { (k : Counters) → encoded k result ≡ joined (is_conj joint) a.count a.longest (Found k b.count b.longest) }
{
    match joint {
        Joint::And => cross_numbers(a, b),
        Joint::Or => list_numbers(a, b),
    }
}

// Of one atom before each alternative.
pub fn put_under(a: Alternatives) -> Result<Alternatives, Refusal>
    ensures { (k : Counters) → MatchResult result (λ b. Found k b.count b.longest ≡ under (Found k a.count a.longest)) (λ e. Refused (refusal_number e) ≡ under (Found k a.count a.longest)) }
{
    if a.count == 0 {
        return Ok(Alternatives {
            count: 0,
            longest: 0,
        });
    }
    if LONGEST <= a.longest {
        return Err(Refusal::NoRoom);
    }
    Ok(Alternatives {
        count: a.count,
        longest: a.longest + 1,
    })
}

// Of alternatives, up to 64, the rules' cap; more are 65, and no None: the table keeps a number, which the next join takes again.
pub fn join_size(joint: Joint, a: u32, n: u32) -> u32
    ensures { result ≡ join_size (is_conj joint) a n }
{
    match joint {
        Joint::And => a.saturating_mul(n).min(65),
        Joint::Or => a.saturating_add(n).min(65),
    }
}

// By 0: 0, and all is left over.
pub fn quot(a: u32, b: u32) -> u32
    ensures { result ≡ a / b }
{
    a.checked_div(b).unwrap_or(0)
}

pub fn rest(a: u32, b: u32) -> u32
    ensures { result ≡ a % b }
{
    a.checked_rem(b).unwrap_or(a)
}

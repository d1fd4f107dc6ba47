// Axioms whose condition speaks of two elements, 25, 26 and 30 to 34: for a first element x the set of those that break it
// behind x, and the first x with one.
// Clauses that repeat stay clauses: `LineIn` is about one moment of what is lent.
ghost use Rattle.std.specs.Prelude.{◌≡◌, true, ◌<◌};
ghost use Rattle.words.specs.Words.{words};
ghost use Rattle.axiomtests.specs.Lines.{LineIn, Behind, FirstWith, of_pair};

use crate::members::Sets;
use crate::{Line, members, roles};
use extents::Trial;

// The first element, and the set of the second ones, which is not empty.
#[derive(Clone, Copy)]
pub struct First {
    pub element: u64,
    pub set: u64,
}

// ObjectPropertyDomain.
fn domain(scratch: &[u8], t: Trial, line: Line, x: u64) -> u64
    requires { LineIn scratch.now t 25 line.at line.count × (x < t.size) }
    ensures { Behind (words scratch.now) t 25 line.at line.count x result }
{
    let code = words::get_word(scratch, line.at + 1);
    let c = words::get_word(scratch, line.at + 2);
    if sets::has(extents::set_of(scratch, c), x) {
        return 0;
    }
    roles::row(scratch, code, x)
}

// ObjectPropertyRange.
fn range(scratch: &[u8], t: Trial, line: Line, x: u64) -> u64
    requires { LineIn scratch.now t 26 line.at line.count × (x < t.size) }
    ensures { Behind (words scratch.now) t 26 line.at line.count x result }
{
    let code = words::get_word(scratch, line.at + 1);
    let c = words::get_word(scratch, line.at + 2);
    sets::without(roles::row(scratch, code, x), extents::set_of(scratch, c))
}

// AsymmetricRole.
fn asymmetric(scratch: &[u8], t: Trial, line: Line, x: u64) -> u64
    requires { LineIn scratch.now t 30 line.at line.count × (x < t.size) }
    ensures { Behind (words scratch.now) t 30 line.at line.count x result }
{
    let code = words::get_word(scratch, line.at + 1);
    sets::both(
        roles::row(scratch, code, x),
        roles::row(scratch, roles::turned(code), x),
    )
}

// DisjointObjectProperties.
fn disjoint_roles(scratch: &[u8], t: Trial, line: Line, x: u64) -> u64
    requires { LineIn scratch.now t 31 line.at line.count × (x < t.size) }
    ensures { Behind (words scratch.now) t 31 line.at line.count x result }
{
    let l = Sets::of_roles(line.at + 1, line.count - 1, x);
    members::clashes(scratch, l, |a, b| a != b)
}

// InverseObjectProperties.
fn inverse(scratch: &[u8], t: Trial, line: Line, x: u64) -> u64
    requires { LineIn scratch.now t 32 line.at line.count × (x < t.size) }
    ensures { Behind (words scratch.now) t 32 line.at line.count x result }
{
    let a = words::get_word(scratch, line.at + 1);
    let b = words::get_word(scratch, line.at + 2);
    sets::differ(
        roles::row(scratch, a, x),
        roles::row(scratch, roles::turned(b), x),
    )
}

// SubObjectPropertyOf.
fn sub_role(scratch: &[u8], t: Trial, line: Line, x: u64) -> u64
    requires { LineIn scratch.now t 33 line.at line.count × (x < t.size) }
    ensures { Behind (words scratch.now) t 33 line.at line.count x result }
{
    let sub = words::get_word(scratch, line.at + 1);
    let sup = words::get_word(scratch, line.at + 2);
    sets::without(roles::row(scratch, sub, x), roles::row(scratch, sup, x))
}

// EquivalentObjectProperties. (As `elements::equivalent`, and DisjointObjectProperties as `elements::disjoint`, but each promises what its
// own axiom says: one function would promise it of any list of sets, which is what `members` promises.)
fn equivalent_roles(scratch: &[u8], t: Trial, line: Line, x: u64) -> u64
    requires { LineIn scratch.now t 34 line.at line.count × (x < t.size) }
    ensures { Behind (words scratch.now) t 34 line.at line.count x result }
{
    let l = Sets::of_roles(line.at + 1, line.count - 1, x);
    members::unlike(scratch, l, t.size as u64)
}

fn pair_mask(scratch: &[u8], t: Trial, line: Line, x: u64) -> u64
    requires { LineIn scratch.now t line.kind line.at line.count × (of_pair line.kind ≡ true) × (x < t.size) }
    ensures { Behind (words scratch.now) t line.kind line.at line.count x result }
{
    match line.kind {
        25 => domain(scratch, t, line, x),
        26 => range(scratch, t, line, x),
        30 => asymmetric(scratch, t, line, x),
        31 => disjoint_roles(scratch, t, line, x),
        32 => inverse(scratch, t, line, x),
        33 => sub_role(scratch, t, line, x),
        _ => equivalent_roles(scratch, t, line, x),
    }
}

// The first element with a set that is not empty, if there is one. (A loop: by `find_map` the step does not close. What it says of its
// calls lets it stop at a None, and what it says of its run `search` does not lead to each element.)
pub fn first_pair(scratch: &[u8], t: Trial, line: Line) -> Option<First>
    requires { LineIn scratch.now t line.kind line.at line.count × (of_pair line.kind ≡ true) }
    ensures { FirstWith (words scratch.now) t line.kind line.at line.count result }
{
    for x in 0..t.size as u64 {
        let m = pair_mask(scratch, t, line, x);
        if m != 0 {
            return Some(First { element: x, set: m });
        }
    }
    None
}

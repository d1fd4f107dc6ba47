// The checks of a line.
ghost use Rattle.std.specs.Prelude.{◌≡◌, ◌&&◌, ◌||◌, ◌≤◌, eqb, ltb, drop};
ghost use Rattle.states.specs.State.{count_ok, follows_ok, takes_class, rest_ok, line_ok};
ghost use Rattle.layouts.specs.Read.{known_of};
ghost use Rattle.layouts.specs.Lines.{before};
ghost use Rattle.layouts.specs.Numbers.{numbers};

use crate::enter::At;
use crate::limits::Limits;
use crate::numbers::Numbers;

// The first line: 50 and 1 to 64 elements.
pub fn count_ok(line: &Numbers) -> bool
    ensures { result ≡ count_ok (numbers line.now) }
{
    if line.count != 2 {
        return false;
    }
    if line.number(0) != 50 {
        return false;
    }
    let size = line.number(1);
    1 <= size && size <= 64
}

// By kind, then by id, each id once.
fn follows(at: At, k: u32, i: u32) -> bool
    ensures { result ≡ follows_ok (before at.kind at.id 0) k i }
{
    51 <= k && k <= 53 && (at.kind, at.id) < (k, i)
}

// The pair (c, d) is above (a, b).
pub fn pair_above(a: u32, b: u32, c: u32, d: u32) -> bool
    ensures { result ≡ (ltb a c || (eqb a c && ltb b d)) }
{
    (a, b) < (c, d)
}

// A declared class, or a fresh id of the run; no individual's class.
fn takes_class(m: Limits, c: u32) -> bool
    ensures { result ≡ takes_class (known_of m) m.fresh c }
{
    let classes = m.classes;
    if c < classes {
        return true;
    }
    let first = classes + m.individuals;
    if c < first {
        return false;
    }
    c < first + m.fresh
}

fn rest_ok(line: &Numbers, m: Limits, k: u32, i: u32) -> bool
    requires { 2 ≤ line.now.count }
    ensures { result ≡ rest_ok (known_of m) m.fresh k i (drop 2 (numbers line.now)) }
{
    if k == 51 {
        takes_class(m, i) && line.rises()
    } else if k == 52 {
        i < m.roles && line.pairs_rise()
    } else {
        i < m.individuals && line.count == 3
    }
}

// A line behind one of this kind and id, in a state of so many elements.
pub fn line_ok(line: &Numbers, m: Limits, at: At, size: u32) -> bool
    ensures { result ≡ line_ok (known_of m) m.fresh (before at.kind at.id size) (numbers line.now) }
{
    if line.count < 2 {
        return false;
    }
    let k = line.number(0);
    let i = line.number(1);
    follows(at, k, i) && line.all_below(size) && rest_ok(line, m, k, i)
}

// Axioms whose condition speaks of one element, 21 to 24, 29 and 35: the set of those that break it.
// Clauses that repeat stay clauses: `LineIn` and `LineThere` are about one moment of what is lent.
ghost use Rattle.std.specs.Prelude.{◌≡◌, true, List, ℕ};
ghost use Rattle.words.specs.Words.{words};
ghost use Rattle.axiomtests.specs.Lines.{LineIn, LineThere, Elements, of_element};

use crate::members::Sets;
use crate::{Line, members};
use extents::Trial;

// SubClassOf.
fn sub_class(scratch: &[u8], t: Trial, line: Line) -> u64
    requires { LineIn scratch.now t 21 line.at line.count }
    ensures { (w : List ℕ) → Elements w (words scratch.now) t 21 line.at line.count result }
{
    let sub = words::get_word(scratch, line.at + 1);
    let sup = words::get_word(scratch, line.at + 2);
    sets::without(extents::set_of(scratch, sub), extents::set_of(scratch, sup))
}

// EquivalentClasses.
fn equivalent(scratch: &[u8], t: Trial, line: Line) -> u64
    requires { LineIn scratch.now t 22 line.at line.count }
    ensures { (w : List ℕ) → Elements w (words scratch.now) t 22 line.at line.count result }
{
    let l = Sets::of_concepts(line.at + 1, line.count - 1);
    members::unlike(scratch, l, t.size as u64)
}

// DisjointClasses.
fn disjoint(scratch: &[u8], t: Trial, line: Line) -> u64
    requires { LineIn scratch.now t 23 line.at line.count }
    ensures { (w : List ℕ) → Elements w (words scratch.now) t 23 line.at line.count result }
{
    let l = Sets::of_concepts(line.at + 1, line.count - 1);
    members::clashes(scratch, l, |_, _| true)
}

// DisjointUnion.
fn disjoint_union(store: &[u8], scratch: &[u8], t: Trial, line: Line) -> u64
    requires { LineThere store.now scratch.now t 24 line.at line.count }
    ensures { Elements (words store.now) (words scratch.now) t 24 line.at line.count result }
{
    let l = Sets::of_concepts(line.at + 2, line.count - 2);
    let class = words::get_word(scratch, line.at + 1) as usize;
    let uncovered = sets::differ(sets::kept::get_set(store, class), members::some(scratch, l));
    sets::either(uncovered, members::clashes(scratch, l, |_, _| true))
}

// IrreflexiveRole.
fn irreflexive(scratch: &[u8], t: Trial, line: Line) -> u64
    requires { LineIn scratch.now t 29 line.at line.count }
    ensures { (w : List ℕ) → Elements w (words scratch.now) t 29 line.at line.count result }
{
    let code = words::get_word(scratch, line.at + 1);
    sets::kept::loops(scratch, code, t.size)
}

// ReflexiveRole.
fn reflexive(scratch: &[u8], t: Trial, line: Line) -> u64
    requires { LineIn scratch.now t 35 line.at line.count }
    ensures { (w : List ℕ) → Elements w (words scratch.now) t 35 line.at line.count result }
{
    let code = words::get_word(scratch, line.at + 1);
    let size = t.size as u64;
    sets::without(sets::whole(size), sets::kept::loops(scratch, code, t.size))
}

pub fn element_mask(store: &[u8], scratch: &[u8], t: Trial, line: Line) -> u64
    requires { LineThere store.now scratch.now t line.kind line.at line.count × (of_element line.kind ≡ true) }
    ensures { Elements (words store.now) (words scratch.now) t line.kind line.at line.count result }
{
    match line.kind {
        21 => sub_class(scratch, t, line),
        22 => equivalent(scratch, t, line),
        23 => disjoint(scratch, t, line),
        24 => disjoint_union(store, scratch, t, line),
        29 => irreflexive(scratch, t, line),
        _ => reflexive(scratch, t, line),
    }
}

// What a good line leaves: the header's numbers, a count, and a concept's or an axiom's record.
// Clauses that repeat stay clauses: `RowEntering` is about one moment of what is lent.
ghost use Rattle.std.specs.Prelude.{◌≡◌, ◌+◌, ◌*◌, ◌≤◌, ◌<◌, length, get_or};
ghost use Rattle.rules.specs.Deck.{section_of};
ghost use Rattle.deck.specs.Records.{with_header, with_key, RowEntering, RowEntered};
ghost use Rattle.deck.specs.Rows.{numbers};

use crate::row::Row;
use crate::state::{Section, State};
use crate::{concepts, kinds, table};

fn enter_header(row: &Row, st: State) -> State
    requires { row.now.line.begin + 11 * row.now.line.fields < length row.now.deck.now }
    ensures { result ≡ with_header st (numbers row.now) (row.now.line.begin + 11 * row.now.line.fields + 1) }
{
    State {
        section: Some(Section::Header),
        classes: row.entry(1),
        individuals: row.entry(2),
        roles: row.entry(3),
        options: row.entry(4),
        marks: row.behind(),
        ..st
    }
}

fn enter_key(st: State) -> State
    requires { st.keys ≤ 65536 }
    ensures { result ≡ with_key st }
{
    State {
        section: Some(Section::Keys),
        keys: st.keys + 1,
        ..st
    }
}

fn enter_concept(row: &Row, t: &mut [u8], kind: usize, st: State) -> State
    requires { RowEntering row.now t.old st × (kind ≡ get_or (numbers row.now) 0 0) × (section_of kind ≡ 3) }
    ensures { RowEntered row.now t.old t.new st result }
{
    let i = st.concepts;
    let depth = concepts::deepest_of(row, t, kinds::first_part(kind), i) + 1;
    table::put_concept(t, i, row.line, depth);
    table::remember(t, i, row.hash());
    State {
        section: Some(Section::Concepts),
        concepts: i + 1,
        ..st
    }
}

fn enter_axiom(row: &Row, t: &mut [u8], st: State) -> State
    requires { RowEntering row.now t.old st × (section_of (get_or (numbers row.now) 0 0) ≡ 4) }
    ensures { RowEntered row.now t.old t.new st result }
{
    let i = st.axioms;
    table::put_axiom(t, i, row.line);
    State {
        section: Some(Section::Axioms),
        axioms: i + 1,
        ..st
    }
}

pub fn enter(row: &Row, t: &mut [u8], st: State) -> State
    requires { RowEntering row.now t.old st }
    ensures { RowEntered row.now t.old t.new st result }
{
    let kind = row.entry(0);
    match kinds::section_of(kind) {
        Some(Section::Header) => enter_header(row, st),
        Some(Section::Keys) => enter_key(st),
        Some(Section::Concepts) => enter_concept(row, t, kind, st),
        Some(Section::Axioms) => enter_axiom(row, t, st),
        None => unreachable!(),
    }
}

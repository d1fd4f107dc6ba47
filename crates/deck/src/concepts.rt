// 6 to 9, of a concept line: what it names, its list, an equal line before it, its bound.
// Clauses that repeat stay clauses: `ConceptsHeld` is about one moment of the table, which a good line changes; `IsList` is of one
// number: a type with it would be made in one place and opened in three.
ghost use Rattle.std.specs.Prelude.{◌≡◌, ℕ, ◌≤◌, ◌<◌, get_or, drop};
ghost use Rattle.words.specs.Words.{words};
ghost use Rattle.rules.specs.Base.{all, any};
ghost use Rattle.rules.specs.Concept.{same_concept};
ghost use Rattle.rules.specs.Deck.{concept_of, member_of, deepest, nest_ok, list_ok, members_ok, bound_ok, concept_verdict};
ghost use Rattle.rules.specs.Invariants.{Each};
ghost use Rattle.rules.specs.Pool.{at};
ghost use Rattle.deck.specs.Records.{row_in, concepts_in, depths_in, known_in, ConceptsHeld, IsConceptLine, first_part, kind_member, under, IsList, verdict_number};
ghost use Rattle.deck.specs.Rows.{numbers};

use crate::row::Row;
use crate::state::State;
use crate::{kinds, table};
use ir::refusal::Refusal;

// A line of a concept kind, with that kind's number of fields.
#[derive(Clone, Copy)]
struct ConceptLine<'a> {
    row: Row<'a>,
    kind: usize,
    ghost is_line: { IsConceptLine row kind },
}

// Concept line i. How many there are is said for the contract alone.
fn concept_row<'a>(deck: &'a [u8], t: &[u8], concepts: usize, i: usize) -> Row<'a>
    requires { ConceptsHeld deck.now t.now concepts × (i < concepts) }
    ensures { numbers result ≡ row_in deck.now (words t.now) i }
{
    Row {
        deck,
        line: table::concept_line(t, i),
    }
}

// The greatest depth of the concepts that are numbers `from` and on. (A loop: tried as `fold`, where it was not
// proved that the table has the depth that each call reads, which is the loop's invariant.)
pub fn deepest_of(row: &Row, t: &[u8], from: usize, concepts: usize) -> usize
    requires { ConceptsHeld row.now.deck.now t.now concepts × Each (λ c. c < concepts) (drop from (numbers row.now)) }
    ensures value { result ≡ deepest (depths_in (words t.now) concepts) 0 (drop from (numbers row.now)) }
    ensures upper_bound { result ≤ 64 }
{
    let mut deepest: usize = 0;
    for k in from..row.line.fields {
        deepest = deepest.max(table::concept_depth(t, row.field(k)));
    }
    deepest
}

fn nested(line: &ConceptLine, t: &[u8], st: State) -> bool
    requires { ConceptsHeld line.now.row.deck.now t.now st.concepts }
    ensures { result ≡ nest_ok (known_in line.now.row.deck.now t.now st) (concept_of line.now.kind (numbers line.now.row)) }
{
    let row = &line.row;
    let from = kinds::first_part(line.kind);
    let concepts = st.concepts;
    row.all_below(from, concepts) && deepest_of(row, t, from, concepts) + 1 <= 64
}

// A list of kind `kind` takes concept line `member`: not Top, not Bot, not its own kind.
#[tactic(auto, using(crate::proofs::KindLaws::fit_law))]
fn fits(deck: &[u8], t: &[u8], concepts: usize, kind: usize, member: usize) -> bool
    requires { IsList kind × ConceptsHeld deck.now t.now concepts × (member < concepts) }
    ensures { result ≡ under kind (kind_member (get_or (row_in deck.now (words t.now) member) 0 0)) }
{
    let member_kind = concept_row(deck, t, concepts, member).entry(0);
    member_kind != 1 && member_kind != 2 && member_kind != kind
}

fn all_fit(row: &Row, t: &[u8], kind: usize, concepts: usize) -> bool
    requires { ConceptsHeld row.now.deck.now t.now concepts × Each (λ c. c < concepts) (drop 1 (numbers row.now)) × IsList kind }
    ensures { result ≡ all (λ c. under kind (member_of (at (concepts_in row.now.deck.now (words t.now) concepts) c))) (drop 1 (numbers row.now)) }
{
    let deck = row.deck;
    row.all(
        1,
        |member|
            requires { IsList kind × ConceptsHeld deck.now t.now concepts × (member < concepts) }
            ensures { result ≡ under kind (kind_member (get_or (row_in deck.entry.now (words t.entry.now) member) 0 0)) }
        { fits(deck, t, concepts, kind, member) },
    )
}

fn members_fine(row: &Row, t: &[u8], kind: usize, concepts: usize) -> bool
    requires { ConceptsHeld row.now.deck.now t.now concepts × Each (λ c. c < concepts) (drop 1 (numbers row.now)) × IsList kind }
    ensures { result ≡ list_ok (concepts_in row.now.deck.now (words t.now) concepts) (under kind) (drop 1 (numbers row.now)) }
{
    row.line.fields >= 3 && row.rises() && all_fit(row, t, kind, concepts)
}

fn list_fine(line: &ConceptLine, t: &[u8], concepts: usize) -> bool
    requires { ConceptsHeld line.now.row.deck.now t.now concepts × Each (λ c. c < concepts) (drop (first_part line.now.kind) (numbers line.now.row)) }
    ensures { result ≡ members_ok (concepts_in line.now.row.deck.now (words t.now) concepts) (concept_of line.now.kind (numbers line.now.row)) }
{
    let kind = line.kind;
    if kind == 7 || kind == 8 {
        members_fine(&line.row, t, kind, concepts)
    } else {
        true
    }
}

// An earlier concept line is equal.
fn repeats(line: &ConceptLine, t: &[u8], concepts: usize) -> bool
    requires { ConceptsHeld line.now.row.deck.now t.now concepts }
    ensures { result ≡ any (same_concept (concept_of line.now.kind (numbers line.now.row))) (concepts_in line.now.row.deck.now (words t.now) concepts) }
{
    let row = &line.row;
    // along a chain of links, for which there is no range; not shared with `pool::index::find`: the test and the link would be closures
    let mut next = table::head(t, row.hash());
    while let Some(i) = next {
        if row.same_numbers(&concept_row(row.deck, t, concepts, i)) {
            return true;
        }
        next = table::link(t, i);
    }
    false
}

fn bound_fine(line: &ConceptLine) -> bool
    ensures { result ≡ bound_ok (concept_of line.now.kind (numbers line.now.row)) }
{
    line.kind != 12 || line.row.below(1, 4294967295)
}

pub fn concept(row: &Row, t: &[u8], kind: usize, st: State) -> Result<(), Refusal>
    requires { IsConceptLine row.now kind × ConceptsHeld row.now.deck.now t.now st.concepts }
    ensures { verdict_number result ≡ concept_verdict (known_in row.now.deck.now t.now st) (concept_of kind (numbers row.now)) }
{
    let concepts = st.concepts;
    let line = ConceptLine { row: *row, kind };
    if !nested(&line, t, st) {
        return Err(Refusal::BadNesting);
    }
    if !list_fine(&line, t, concepts) {
        return Err(Refusal::BadList);
    }
    if repeats(&line, t, concepts) {
        return Err(Refusal::Repeated);
    }
    if !bound_fine(&line) {
        return Err(Refusal::LargestBound);
    }
    Ok(())
}

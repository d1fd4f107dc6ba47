// What a line's kind says by itself: its section, its fields, and 3, the order of sections and the number of fields. A kind stays the
// number that it is in a deck: the rules' `concept_of` and `axiom_of` are by number too.
ghost use Rattle.std.specs.Prelude.{◌≡◌, ◌&&◌};
ghost use Rattle.rules.specs.Deck.{section_of, fixed_of, is_list_kind, in_order, fields_ok};
ghost use Rattle.deck.specs.Records.{section_number, section_code, first_part};
ghost use Rattle.deck.specs.Kinds.{Says};

use crate::state::Section;

// Of a kind: its section, its numbers before a list, whether the rest of the line is a list, and where the concepts that a concept
// line names begin, which are the rest of the line.
#[derive(Clone, Copy)]
struct Kind {
    section: Section,
    fixed: usize,
    listed: bool,
    first: usize,
}

// Numbers without a comment are no kinds.
static KINDS: [Option<Kind>; 37] = [
    // 0 header
    Some(Kind {
        section: Section::Header,
        fixed: 4,
        listed: false,
        first: 5,
    }),
    // 1 Top
    Some(Kind {
        section: Section::Concepts,
        fixed: 0,
        listed: false,
        first: 1,
    }),
    // 2 Bot
    Some(Kind {
        section: Section::Concepts,
        fixed: 0,
        listed: false,
        first: 1,
    }),
    // 3 Atomic
    Some(Kind {
        section: Section::Concepts,
        fixed: 1,
        listed: false,
        first: 2,
    }),
    // 4 Nominal
    Some(Kind {
        section: Section::Concepts,
        fixed: 1,
        listed: false,
        first: 2,
    }),
    // 5 Self
    Some(Kind {
        section: Section::Concepts,
        fixed: 1,
        listed: false,
        first: 2,
    }),
    // 6 Not
    Some(Kind {
        section: Section::Concepts,
        fixed: 1,
        listed: false,
        first: 1,
    }),
    // 7 And
    Some(Kind {
        section: Section::Concepts,
        fixed: 0,
        listed: true,
        first: 1,
    }),
    // 8 Or
    Some(Kind {
        section: Section::Concepts,
        fixed: 0,
        listed: true,
        first: 1,
    }),
    // 9 Some
    Some(Kind {
        section: Section::Concepts,
        fixed: 2,
        listed: false,
        first: 2,
    }),
    // 10 All
    Some(Kind {
        section: Section::Concepts,
        fixed: 2,
        listed: false,
        first: 2,
    }),
    // 11 Min
    Some(Kind {
        section: Section::Concepts,
        fixed: 3,
        listed: false,
        first: 3,
    }),
    // 12 Max
    Some(Kind {
        section: Section::Concepts,
        fixed: 3,
        listed: false,
        first: 3,
    }),
    None,
    // 14 key mark
    Some(Kind {
        section: Section::Keys,
        fixed: 1,
        listed: false,
        first: 0,
    }),
    None,
    None,
    None,
    None,
    None,
    None,
    // 21 SubClassOf
    Some(Kind {
        section: Section::Axioms,
        fixed: 2,
        listed: false,
        first: 0,
    }),
    // 22 EquivalentClasses
    Some(Kind {
        section: Section::Axioms,
        fixed: 0,
        listed: true,
        first: 0,
    }),
    // 23 DisjointClasses
    Some(Kind {
        section: Section::Axioms,
        fixed: 0,
        listed: true,
        first: 0,
    }),
    // 24 DisjointUnion
    Some(Kind {
        section: Section::Axioms,
        fixed: 1,
        listed: true,
        first: 0,
    }),
    // 25 domain
    Some(Kind {
        section: Section::Axioms,
        fixed: 2,
        listed: false,
        first: 0,
    }),
    // 26 range
    Some(Kind {
        section: Section::Axioms,
        fixed: 2,
        listed: false,
        first: 0,
    }),
    // 27 chain
    Some(Kind {
        section: Section::Axioms,
        fixed: 1,
        listed: true,
        first: 0,
    }),
    // 28 transitive
    Some(Kind {
        section: Section::Axioms,
        fixed: 1,
        listed: false,
        first: 0,
    }),
    // 29 irreflexive
    Some(Kind {
        section: Section::Axioms,
        fixed: 1,
        listed: false,
        first: 0,
    }),
    // 30 asymmetric
    Some(Kind {
        section: Section::Axioms,
        fixed: 1,
        listed: false,
        first: 0,
    }),
    // 31 disjoint roles
    Some(Kind {
        section: Section::Axioms,
        fixed: 0,
        listed: true,
        first: 0,
    }),
    // 32 inverse
    Some(Kind {
        section: Section::Axioms,
        fixed: 2,
        listed: false,
        first: 0,
    }),
    // 33 role inclusion
    Some(Kind {
        section: Section::Axioms,
        fixed: 2,
        listed: false,
        first: 0,
    }),
    // 34 equivalent roles
    Some(Kind {
        section: Section::Axioms,
        fixed: 0,
        listed: true,
        first: 0,
    }),
    // 35 reflexive
    Some(Kind {
        section: Section::Axioms,
        fixed: 1,
        listed: false,
        first: 0,
    }),
    // 36 ClassAssertion
    Some(Kind {
        section: Section::Axioms,
        fixed: 2,
        listed: false,
        first: 0,
    }),
];

fn kind_of(number: usize) -> Option<Kind>
    ensures { Says result number }
{
    *KINDS.get(number)?
}

pub fn section_of(kind: usize) -> Option<Section>
    ensures { section_number result ≡ section_of kind }
{
    kind_of(kind).map(|kind| kind.section)
}

pub fn fixed_of(kind: usize) -> usize
    ensures { result ≡ fixed_of kind }
{
    kind_of(kind).map_or(0, |kind| kind.fixed)
}

fn is_list(kind: usize) -> bool
    ensures { result ≡ is_list_kind kind }
{
    kind_of(kind).is_some_and(|kind| kind.listed)
}

pub fn first_part(kind: usize) -> usize
    ensures { result ≡ first_part kind }
{
    kind_of(kind).map_or(0, |kind| kind.first)
}

// The header comes first and once.
fn in_order(old: usize, new: Section) -> bool
    ensures { result ≡ in_order old (section_code new) }
{
    match new {
        Section::Header => old == 0,
        _ => 1 <= old && old <= new as usize,
    }
}

fn fields_fine(kind: usize, n: usize) -> bool
    ensures { result ≡ fields_ok kind n }
{
    let least = 1 + fixed_of(kind);
    if is_list(kind) {
        least <= n
    } else {
        n == least
    }
}

// Check 3 of a line of n numbers, behind one of section `old`, which may be any number; 0 where there is none.
pub fn shape(old: usize, kind: usize, n: usize) -> bool
    ensures { result ≡ (in_order old (section_of kind) && fields_ok kind n) }
{
    match section_of(kind) {
        Some(new) => in_order(old, new) && fields_fine(kind, n),
        None => false,
    }
}

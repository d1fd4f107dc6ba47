// 5: the classes, individuals and roles of a line, and an axiom's concepts, are declared.
ghost use Rattle.std.specs.Prelude.{◌≡◌};
ghost use Rattle.rules.specs.Deck.{concept_of, axiom_of, Known, concept_names_ok, axiom_names_ok, names_ok};
ghost use Rattle.deck.specs.Records.{header_in, Counted};
ghost use Rattle.deck.specs.Rows.{numbers};

use crate::kinds;
use crate::row::Row;
use crate::state::{Section, State};

fn concept_names(row: &Row, kind: usize, st: State) -> bool
    ensures { result ≡ concept_names_ok (header_in st) (concept_of kind (numbers row.now)) }
{
    match kind {
        1 | 2 | 6 | 7 | 8 => true,
        3 => row.below(1, st.classes),
        4 => row.below(1, st.individuals),
        5 | 9 | 10 => row.role_below(1, st.roles),
        _ => row.role_below(2, st.roles),
    }
}

fn axiom_names(row: &Row, kind: usize, st: State) -> bool
    ensures { result ≡ axiom_names_ok (header_in st) st.concepts (axiom_of kind (numbers row.now)) }
{
    let concepts = st.concepts;
    let roles = st.roles;
    match kind {
        21 => row.below(1, concepts) && row.below(2, concepts),
        22 | 23 => row.all_below(1, concepts),
        24 => row.below(1, st.classes) && row.all_below(2, concepts),
        25 | 26 => row.role_below(1, roles) && row.below(2, concepts),
        27 => row.role_below(1, roles) && row.all_roles_below(2, roles),
        28 | 29 | 30 | 35 => row.role_below(1, roles),
        31 | 34 => row.all_roles_below(1, roles),
        32 | 33 => row.role_below(1, roles) && row.role_below(2, roles),
        _ => row.below(1, concepts) && row.below(2, st.individuals),
    }
}

// The answer for all that is known beside the state's numbers, as in `limits`.
pub fn names(row: &Row, kind: usize, st: State) -> bool
    ensures { (d : Known) → Counted st d → result ≡ names_ok d kind (numbers row.now) }
{
    match kinds::section_of(kind) {
        Some(Section::Keys) => row.below(1, st.classes),
        Some(Section::Concepts) => concept_names(row, kind, st),
        Some(Section::Axioms) => axiom_names(row, kind, st),
        _ => true,
    }
}

// The reader of a deck: each line is checked for 3 to 9 in turn from what is known of the lines before it, and a good line leaves
// its record. A line itself stays in the deck: it is its place and its number of fields.
#![tactic(auto)]

pub mod concepts;
pub mod enter;
pub mod kinds;
pub mod limits;
pub mod names;
pub mod row;
pub mod state;
pub mod table;

ghost use Rattle.std.specs.Prelude.{◌≡◌, true, ◌+◌, ◌*◌, ◌≤◌, ◌<◌, length, get_or};
ghost use Rattle.words.specs.Words.{words};
ghost use Rattle.rules.specs.Deck.{Known, fields_ok, verdict as verdict_of, read_lines, read_deck};
ghost use Rattle.deck.specs.Records.{section_number, verdict_number, behind_line, Counted, table_bytes, keys_in, known_in, Held, Fresh, told_of, Kept};
ghost use Rattle.deck.specs.Rows.{numbers};

use crate::row::{Line, Row};
use crate::state::{Section, State};
use ir::answer::Refused;
use ir::refusal::Refusal;

// 3 to 5 of a line, by its numbers and the state's: what the table holds is a premise about all that a caller may mean, as in
// `limits`.
pub fn line_verdict(row: &Row, st: State) -> Result<(), Refusal>
    ensures fact { (d : Known) → section_number st.section ≡ d.section → Counted st d → verdict_of d (get_or (numbers row.now) 0 0) (numbers row.now) ≡ behind_line d (get_or (numbers row.now) 0 0) (numbers row.now) (verdict_number result) }
    ensures fields { verdict_number result ≡ 0 → fields_ok (get_or (numbers row.now) 0 0) row.now.line.fields ≡ true }
{
    let kind = row.entry(0);
    if !kinds::shape(state::number(st.section), kind, row.line.fields) {
        return Err(Refusal::BadLine);
    }
    if !limits::limits(row, kind, st) {
        return Err(Refusal::PastLimit);
    }
    if !names::names(row, kind, st) {
        return Err(Refusal::Undeclared);
    }
    Ok(())
}

// The checks from 3 on; the first that the line fails.
fn verdict(row: &Row, t: &[u8], st: State) -> Result<(), Refusal>
    requires { Held row.now.deck.now t.now st row.now.line.begin }
    ensures { verdict_number result ≡ verdict_of (known_in row.now.deck.now t.now st) (get_or (numbers row.now) 0 0) (numbers row.now) }
{
    line_verdict(row, st)?;
    let kind = row.entry(0);
    if kinds::section_of(kind) == Some(Section::Concepts) {
        concepts::concept(row, t, kind, st)
    } else {
        Ok(())
    }
}

fn read_lines(deck: &[u8], t: &mut [u8]) -> Result<State, Refused>
    requires { (length deck.now ≤ 65536) × Fresh t.old }
    ensures result_after { told_of deck.now t.new result ≡ read_lines deck.now }
    ensures kept { Kept deck.now t.new result }
{
    if deck.is_empty() {
        return Err(Refused {
            refusal: Refusal::BadLine,
            line: 1,
        });
    }
    let mut st = State::default();
    let mut begin: usize = 0;
    let mut line: u32 = 1;
    // a line says how long it is, so that no range gives the lines
    while begin < deck.len() {
        let Some(fields) = text::fields(deck, begin) else {
            return Err(Refused {
                refusal: Refusal::BadColumns,
                line,
            });
        };
        let row = Row {
            deck,
            line: Line { begin, fields },
        };
        verdict(&row, t, st).map_err(|refusal| Refused { refusal, line })?;
        st = enter::enter(&row, t, st);
        begin = row.behind();
        line += 1;
    }
    Ok(st)
}

// The deck, checked line by line. The table takes the records; where the deck is refused, it holds those of the lines before.
pub fn read(deck: &[u8], t: &mut [u8]) -> Result<State, Refused>
    requires { table_bytes ≤ length t.old }
    ensures result_after { told_of deck.now t.new result ≡ read_deck deck.now }
    ensures kept { Kept deck.now t.new result }
{
    if 65536 < deck.len() {
        return Err(Refused::from(Refusal::BadColumns));
    }
    words::clear_words(t, table::HEADS, table::LINKS - table::HEADS);
    read_lines(deck, t)
}

// The class of key mark i.
pub fn key(deck: &[u8], st: State, i: usize) -> usize
    requires { (st.marks + 23 * st.keys ≤ length deck.now) × (i < st.keys) }
    ensures { result ≡ get_or (keys_in deck.now st.marks st.keys) i 0 }
{
    text::field(deck, st.marks + 23 * i, 2, 1)
}

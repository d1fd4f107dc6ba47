// A good line entered into the words that lay out the state.
// Clauses that repeat stay clauses: each function asks for the length that it reads; a type with a number's bound would be made at each
// read and opened at each use. A run stays its first word and its count, as in the definitions.
ghost use Rattle.std.specs.Prelude.{◌≡◌, Bool, true, ℕ, ◌+◌, ◌*◌, ◌<◌, ◌≤◌, ltb, length, drop};
ghost use Rattle.words.specs.Words.{words};
ghost use Rattle.rules.specs.Base.{all};
ghost use Rattle.rules.specs.Run.{scratch_bytes};
ghost use Rattle.states.specs.State.{State};
ghost use Rattle.sets.specs.Places.{rows_at};
ghost use Rattle.sets.specs.Laid.{KeptTo};
ghost use Rattle.layouts.specs.Read.{known_of};
ghost use Rattle.layouts.specs.Lines.{line_in, LineThere, rows_word};
ghost use Rattle.layouts.specs.Drawn.{room_put, Linked, RowsAs, with_pair, with_pairs, Drawn, Enterable, IsLine, entered_line};

use crate::limits::Limits;
use crate::numbers::Numbers;
use sets::{kept, places};

// Kind and id of the line before, and how many lines 53 were read. Kinds are the numbers of the text: lines are in the order of both.
#[derive(Clone, Copy)]
pub struct At {
    pub kind: u32,
    pub id: u32,
    pub singles: u32,
}

// The class's set, where the store has room for it.
fn put_class(store: &mut [u8], c: usize, set: u64)
    requires { c < 8589934592 }
    ensures { words store.new ≡ room_put (words store.old) c set }
{
    if 8 * c + 8 <= store.len() {
        kept::put_set(store, c, set);
    }
}

// Element x becomes related to y by a role code.
fn link(scratch: &mut [u8], code: usize, x: u32, y: u32)
    requires { (scratch_bytes ≤ length scratch.old) × (code < 2048) × (x < 64) × (y < 64) }
    ensures { Linked (words scratch.old) (words scratch.new) (rows_at + 64 * code + x) y }
{
    let i = places::ROWS + 64 * code + x as usize;
    let row = kept::get_set(scratch, i);
    kept::put_set(scratch, i, sets::with(row, y as u64));
}

// The pair (a, b) of a role, in both directions.
fn link_pair(scratch: &mut [u8], role: u32, a: u32, b: u32)
    requires { (scratch_bytes ≤ length scratch.old) × (role < 1024) × (a < 64) × (b < 64) }
    ensures by_index { (n roles : ℕ) (f : ℕ → ℕ → ℕ → Bool) → n ≤ 64 → a < n → b < n → RowsAs n roles (words scratch.old) f → RowsAs n roles (words scratch.new) (with_pair f role a b) }
    ensures kept_to { KeptTo rows_word (words scratch.old) (words scratch.new) }
{
    let code = 2 * (role as usize);
    link(scratch, code, a, b);
    link(scratch, code + 1, b, a);
}

// The pairs of a line 52. (The count alone: `Numbers` lends scratch, which is written between two pairs.)
fn enter_pairs(scratch: &mut [u8], n: usize, role: u32, size: u32)
    requires { LineThere scratch.old n × (2 ≤ n) × (role < 1024) × (size ≤ 64) × (all (λ e. ltb e size) (drop 2 (line_in (words scratch.old) n)) ≡ true) }
    ensures by_index { (roles : ℕ) (f : ℕ → ℕ → ℕ → Bool) → RowsAs size roles (words scratch.old) f → RowsAs size roles (words scratch.new) (with_pairs f role (drop 2 (line_in (words scratch.old) n))) }
    ensures kept_to { KeptTo rows_word (words scratch.old) (words scratch.new) }
{
    for j in (1..n / 2).rev() {
        let line = Numbers { scratch, count: n };
        let a = line.number(2 * j);
        let b = line.number(2 * j + 1);
        link_pair(scratch, role, a, b);
    }
}

// Its line, good and of this kind and id, entered. (Limits are the deck's, the size the state's, and a place the line's: a struct
// of the three would be taken apart by each who gets it. The count as above.)
pub fn enter(store: &mut [u8], scratch: &mut [u8], n: usize, m: Limits, at: At, size: u32) -> At
    requires { Enterable m at size store.old scratch.old n }
    ensures line { IsLine result (line_in (words scratch.old) n) }
    ensures drawn { (s : State) → Drawn (known_of m) s at size (words store.old) (words scratch.old) → Drawn (known_of m) (entered_line s (line_in (words scratch.old) n)) result size (words store.new) (words scratch.new) }
    ensures kept_to { KeptTo rows_word (words scratch.old) (words scratch.new) }
{
    let line = Numbers { scratch, count: n };
    let kind = line.number(0);
    let id = line.number(1);
    if kind == 51 {
        put_class(store, id as usize, line.set(size));
        return At { kind, id, ..at };
    }
    if kind == 52 {
        enter_pairs(scratch, n, id, size);
        return At { kind, id, ..at };
    }
    let x = line.number(2);
    let class = (m.classes + at.singles) as usize;
    let singles = at.singles + 1;
    put_class(store, class, sets::with(0, x as u64));
    At { kind, id, singles }
}

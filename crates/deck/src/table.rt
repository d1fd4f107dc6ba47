// The table: three words for each concept line (where it begins, its number of fields, its depth), two for each axiom line (where
// it begins, its number of fields), and an index of the concept lines: by hash the last one, and for each the one before it with
// its hash (one more than its number; 0: none).
// Each word has its own function: its contract's definition is by its place.
// Clauses that repeat stay clauses: each function asks for the length that it reads; a type with a number's bound would be made at each
// read and opened at each use.
ghost use Rattle.std.specs.Prelude.{◌≡◌, [], ◌∷◌, ◌+◌, ◌*◌, ◌≤◌, ◌<◌, length, get_or, set};
ghost use Rattle.std.proofs.lemmas.List.Edits.{sets};
ghost use Rattle.words.specs.Words.{words};
ghost use Rattle.deck.specs.Records.{axioms_at, heads_at, links_at, table_bytes};
ghost use Rattle.deck.specs.Rows.{line_in, link_word};

use crate::row::Line;

// The table is of lent bytes, so that its parts are known by their first words.
const AXIOMS: usize = 3072;

pub(crate) const HEADS: usize = 5120;

pub(crate) const LINKS: usize = 6144;

fn word(t: &[u8], i: usize) -> usize
    requires { 4 * i + 4 ≤ length t.now }
    ensures { result ≡ get_or (words t.now) i 0 }
{
    words::get_word(t, i) as usize
}

// The line whose two words begin at word i.
fn line(t: &[u8], i: usize) -> Line
    requires { 4 * i + 8 ≤ length t.now }
    ensures { result ≡ line_in (words t.now) i }
{
    Line {
        begin: word(t, i),
        fields: word(t, i + 1),
    }
}

pub fn concept_line(t: &[u8], i: usize) -> Line
    requires { 12 * i + 12 ≤ length t.now }
    ensures { result ≡ line_in (words t.now) (3 * i) }
{
    line(t, 3 * i)
}

pub fn concept_depth(t: &[u8], i: usize) -> usize
    requires { 12 * i + 12 ≤ length t.now }
    ensures { result ≡ get_or (words t.now) (3 * i + 2) 0 }
{
    word(t, 3 * i + 2)
}

pub fn axiom_line(t: &[u8], i: usize) -> Line
    requires { (i < 1024) × (table_bytes ≤ length t.now) }
    ensures { result ≡ line_in (words t.now) (axioms_at + 2 * i) }
{
    line(t, AXIOMS + 2 * i)
}

// The last concept line with this hash.
pub fn head(t: &[u8], hash: usize) -> Option<usize>
    requires { (hash < 1024) × (table_bytes ≤ length t.now) }
    ensures { link_word result ≡ get_or (words t.now) (heads_at + hash) 0 }
{
    word(t, HEADS + hash).checked_sub(1)
}

// The one before concept line i with its hash.
pub fn link(t: &[u8], i: usize) -> Option<usize>
    requires { (i < 1024) × (table_bytes ≤ length t.now) }
    ensures { link_word result ≡ get_or (words t.now) (links_at + i) 0 }
{
    word(t, LINKS + i).checked_sub(1)
}

pub fn put_concept(t: &mut [u8], i: usize, line: Line, depth: usize)
    requires { (12 * i + 12 ≤ length t.old) × (line.begin ≤ 65536) × (line.fields ≤ 65536) × (depth ≤ 65536) }
    ensures { words t.new ≡ sets (words t.old) (3 * i) (line.begin ∷ line.fields ∷ depth ∷ []) }
{
    words::put_words(
        t,
        3 * i,
        &[line.begin as u32, line.fields as u32, depth as u32],
    );
}

pub fn put_axiom(t: &mut [u8], i: usize, line: Line)
    requires { (i < 1024) × (table_bytes ≤ length t.old) × (line.begin ≤ 65536) × (line.fields ≤ 65536) }
    ensures { words t.new ≡ sets (words t.old) (axioms_at + 2 * i) (line.begin ∷ line.fields ∷ []) }
{
    words::put_words(t, AXIOMS + 2 * i, &[line.begin as u32, line.fields as u32]);
}

// Concept line i joins the index.
pub fn remember(t: &mut [u8], i: usize, hash: usize)
    requires { (i < 1024) × (hash < 1024) × (table_bytes ≤ length t.old) }
    ensures { words t.new ≡ set (set (words t.old) (links_at + i) (get_or (words t.old) (heads_at + hash) 0)) (heads_at + hash) (i + 1) }
{
    let before = words::get_word(t, HEADS + hash);
    words::put_word(t, LINKS + i, before);
    words::put_word(t, HEADS + hash, (i + 1) as u32);
}

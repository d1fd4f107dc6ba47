// The records of the lent tables: how many there is room for, clause i's record, its body and its head as parts of the atom table,
// deferral i's record.
// Clauses that repeat stay clauses: each function asks for the length that it reads; `ClauseThere` is about one moment of what is lent.
ghost use Rattle.std.specs.Prelude.{◌≡◌, ◌++◌, ◌+◌, ◌-◌, ◌*◌, ◌/◌, ◌≤◌, length, take, drop};
ghost use Rattle.words.specs.Words.{words};
ghost use Rattle.rules.specs.State.{Clause};
ghost use Rattle.rules.specs.Run.{clause_words, atom_words, deferral_words};
ghost use Rattle.tables.specs.Tabled.{first_atom, body_count, head_count, deferred_line, deferred_kind, ClauseAt, ClauseThere, Run};

// The words of a clause's record.
pub const CLAUSE: usize = 3;

// The words of a deferral's.
pub const DEFERRAL: usize = 2;

// One function for each table: the generic `room::<12>(clauses)` would be called by a record's bytes and not by its name.

// How many clauses there is room for.
pub fn clause_room(clauses: &[u8]) -> usize
    ensures { result ≡ length clauses.now / (4 * clause_words) }
{
    clauses.len() / 12
}

// How many atoms.
pub fn atom_room(atoms: &[u8]) -> usize
    ensures { result ≡ length atoms.now / (4 * atom_words) }
{
    atoms.len() / 24
}

// How many deferrals.
pub fn deferral_room(deferrals: &[u8]) -> usize
    ensures { result ≡ length deferrals.now / (4 * deferral_words) }
{
    deferrals.len() / 8
}

// Each word of a record has its own function, by the name that its contract's definition has.

// Where its atoms begin.
pub fn first_atom(clauses: &[u8], i: u32) -> u32
    requires { 4 * (clause_words * i + clause_words) ≤ length clauses.now }
    ensures { result ≡ first_atom (words clauses.now) i }
{
    words::get_word(clauses, CLAUSE * (i as usize))
}

// The atoms of its body.
pub fn body_count(clauses: &[u8], i: u32) -> u32
    requires { 4 * (clause_words * i + clause_words) ≤ length clauses.now }
    ensures { result ≡ body_count (words clauses.now) i }
{
    words::get_word(clauses, CLAUSE * (i as usize) + 1)
}

// The atoms of its head.
pub fn head_count(clauses: &[u8], i: u32) -> u32
    requires { 4 * (clause_words * i + clause_words) ≤ length clauses.now }
    ensures { result ≡ head_count (words clauses.now) i }
{
    words::get_word(clauses, CLAUSE * (i as usize) + 2)
}

// The n atoms from atom `first` on.
fn part(atoms: &[u8], first: usize, n: usize) -> &[u8]
    requires { 24 * (first + n) ≤ length atoms.now }
    ensures { result.now ≡ take (24 * (first + n) - 24 * first) (drop (24 * first) atoms.now) }
{
    &atoms[24 * first..24 * (first + n)]
}

// Its body.
pub fn body_of<'a>(clauses: &[u8], atoms: &'a [u8], i: u32) -> &'a [u8]
    requires { ClauseThere (words clauses.now) (words atoms.now) i }
    ensures { (x : Clause) → ClauseAt (words clauses.now) (words atoms.now) i x → Run result.now x.body }
{
    let first = first_atom(clauses, i) as usize;
    let n = body_count(clauses, i) as usize;
    part(atoms, first, n)
}

// Its head.
pub fn head_of<'a>(clauses: &[u8], atoms: &'a [u8], i: u32) -> &'a [u8]
    requires { ClauseThere (words clauses.now) (words atoms.now) i }
    ensures { (x : Clause) → ClauseAt (words clauses.now) (words atoms.now) i x → Run result.now x.head }
{
    let first = first_atom(clauses, i) as usize;
    let n = body_count(clauses, i) as usize;
    let m = head_count(clauses, i) as usize;
    part(atoms, first + n, m)
}

// Its body and the head behind it.
pub fn atoms_of<'a>(clauses: &[u8], atoms: &'a [u8], i: u32) -> &'a [u8]
    requires { ClauseThere (words clauses.now) (words atoms.now) i }
    ensures { (x : Clause) → ClauseAt (words clauses.now) (words atoms.now) i x → Run result.now (x.body ++ x.head) }
{
    let first = first_atom(clauses, i) as usize;
    let n = body_count(clauses, i) as usize;
    let m = head_count(clauses, i) as usize;
    part(atoms, first, n + m)
}

// Deferral i: its axiom's line.
pub fn deferral_line(deferrals: &[u8], i: u32) -> u32
    requires { 4 * (deferral_words * i + deferral_words) ≤ length deferrals.now }
    ensures { result ≡ deferred_line (words deferrals.now) i }
{
    words::get_word(deferrals, DEFERRAL * (i as usize))
}

// Its kind.
pub fn deferral_kind(deferrals: &[u8], i: u32) -> u32
    requires { 4 * (deferral_words * i + deferral_words) ≤ length deferrals.now }
    ensures { result ≡ deferred_kind (words deferrals.now) i }
{
    words::get_word(deferrals, DEFERRAL * (i as usize) + 1)
}

// Atoms in records of scratch, and what the pass reads of a record without its atom: the kind, the variable, a role atom's other.
// Clauses that repeat stay clauses: each function asks for the length that it reads.
ghost use Rattle.std.specs.Prelude.{◌≡◌, ◌+◌, ◌*◌, ◌≤◌, length, get_or};
ghost use Rattle.words.specs.Words.{words};

// The kinds of class, role and Exists atoms. (Numbers, as the records have them: an enum would name six kinds to tell three.)
pub const CLASS: u32 = 1;

pub const ROLE: u32 = 2;

pub const EXISTS: u32 = 3;

// The `count` atoms from record `base` on. Their bounds stay clauses: a ghost field would ask more of `mentions_kept` and others that have
// no such clause (DECISIONS, "What a struct's ghost field may ask").
#[derive(Clone, Copy)]
pub struct Atoms {
    pub base: usize,
    pub count: u32,
}

pub fn kind(atoms: &[u8], i: usize) -> u32
    requires { 24 * i + 24 ≤ length atoms.now }
    ensures { result ≡ get_or (words atoms.now) (6 * i) 0 }
{
    words::get_word(atoms, 6 * i)
}

pub fn var(atoms: &[u8], i: usize) -> u32
    requires { 24 * i + 24 ≤ length atoms.now }
    ensures { result ≡ get_or (words atoms.now) (6 * i + 4) 0 }
{
    words::get_word(atoms, 6 * i + 4)
}

pub fn other(atoms: &[u8], i: usize) -> u32
    requires { 24 * i + 24 ≤ length atoms.now }
    ensures { result ≡ get_or (words atoms.now) (6 * i + 5) 0 }
{
    words::get_word(atoms, 6 * i + 5)
}

// A concept's record, six words: kind, role code, number, child, the list members in use after it, and the index's link.
// Clauses that repeat stay clauses: each function asks for the length that it reads; a type with a number's bound would be made at each
// read and opened at each use.
ghost use Rattle.std.specs.Prelude.{◌≡◌, ◌+◌, ◌≤◌, ◌<◌, length, get_or};
ghost use Rattle.words.specs.Words.{words};
ghost use Rattle.rules.specs.Pool.{most_concepts, most_members};
ghost use Rattle.pool.specs.Layout.{pool_bytes, members_at, heads_at, record_words, field, is_list, count_of, starts_at};
ghost use Rattle.pool.specs.Held.{link_word};

use crate::layout::{AND, HEADS, MEMBERS, OR, RECORD};

// And or Or.
pub fn is_list(kind: u32) -> bool
    ensures { result ≡ is_list kind }
{
    kind == AND || kind == OR
}

// The four words that say what a concept is. The number is Atomic's class, Nominal's individual, n of Min and Max, the count of
// And and Or; the child is a concept, or where the run of And and Or starts.
#[derive(Clone, Copy)]
pub struct Record {
    pub kind: u32,
    pub role: u32,
    pub number: u32,
    pub child: u32,
}

impl Record {
    pub fn new(kind: u32, role: u32, number: u32, child: u32) -> Record
        ensures { result ≡ record_words kind role number child }
    {
        Record {
            kind,
            role,
            number,
            child,
        }
    }

    // And or Or.
    pub fn is_list(self) -> bool
        ensures { result ≡ is_list self.kind }
    {
        is_list(self.kind)
    }

    // How many members its list has.
    pub fn count(self) -> u32
        ensures { result ≡ count_of self }
    {
        if self.is_list() { self.number } else { 0 }
    }

    // With the start of its list's run.
    pub fn starts_at(self, start: u32) -> Record
        ensures { result ≡ starts_at start self }
    {
        if self.is_list() {
            Record {
                child: start,
                ..self
            }
        } else {
            self
        }
    }
}

// Word j of concept c's record.
fn word(scratch: &[u8], c: u32, j: usize) -> u32
    requires { (c < most_concepts) × (j < 6) × (pool_bytes ≤ length scratch.now) }
    ensures { result ≡ field (words scratch.now) c j }
{
    let i = RECORD * (c as usize) + j;
    words::get_word(scratch, i)
}

// Each word of a record has its own function, by the name of the field.
pub fn kind(scratch: &[u8], c: u32) -> u32
    requires { (c < most_concepts) × (pool_bytes ≤ length scratch.now) }
    ensures { result ≡ field (words scratch.now) c 0 }
{
    word(scratch, c, 0)
}

pub fn role(scratch: &[u8], c: u32) -> u32
    requires { (c < most_concepts) × (pool_bytes ≤ length scratch.now) }
    ensures { result ≡ field (words scratch.now) c 1 }
{
    word(scratch, c, 1)
}

pub fn number(scratch: &[u8], c: u32) -> u32
    requires { (c < most_concepts) × (pool_bytes ≤ length scratch.now) }
    ensures { result ≡ field (words scratch.now) c 2 }
{
    word(scratch, c, 2)
}

pub fn child(scratch: &[u8], c: u32) -> u32
    requires { (c < most_concepts) × (pool_bytes ≤ length scratch.now) }
    ensures { result ≡ field (words scratch.now) c 3 }
{
    word(scratch, c, 3)
}

// The list members in use after the record.
pub fn used(scratch: &[u8], c: u32) -> u32
    requires { (c < most_concepts) × (pool_bytes ≤ length scratch.now) }
    ensures { result ≡ field (words scratch.now) c 4 }
{
    word(scratch, c, 4)
}

// The record before it with the same hash.
pub fn link(scratch: &[u8], c: u32) -> Option<u32>
    requires { (c < most_concepts) × (pool_bytes ≤ length scratch.now) }
    ensures { link_word result ≡ field (words scratch.now) c 5 }
{
    word(scratch, c, 5).checked_sub(1)
}

// List member i.
pub fn member(scratch: &[u8], i: u32) -> u32
    requires { (i < most_members) × (pool_bytes ≤ length scratch.now) }
    ensures { result ≡ get_or (words scratch.now) (members_at + i) 0 }
{
    let at = MEMBERS + i as usize;
    words::get_word(scratch, at)
}

// The last record with hash h.
pub fn head(scratch: &[u8], h: usize) -> Option<u32>
    requires { (h < most_concepts) × (pool_bytes ≤ length scratch.now) }
    ensures { link_word result ≡ get_or (words scratch.now) (heads_at + h) 0 }
{
    words::get_word(scratch, HEADS + h).checked_sub(1)
}

// A line of a deck, its numbers read where they stand.
ghost use Rattle.std.specs.Prelude.{◌+◌, ◌*◌, ◌≤◌, length};

// Where a line begins and its number of fields.
#[derive(Clone, Copy)]
pub struct Line {
    pub begin: usize,
    pub fields: usize,
}

#[derive(Clone, Copy)]
pub struct Row<'a> {
    pub deck: &'a [u8],
    pub line: Line,
    pub ghost within: { line.begin + 11 * line.fields ≤ length deck.now },
}

impl<'a> Row<'a> {
    ghost use Rattle.std.specs.Prelude.{◌≡◌, ◌<◌, ◌^◌, ℕ, Bool, ltb, get_or, drop};
    ghost use Rattle.ir.specs.Records.{same_words};
    ghost use Rattle.ir.specs.Roles.{role_id, role_of};
    ghost use Rattle.rules.specs.Base.{all};
    ghost use Rattle.rules.specs.Deck.{role_at, rising};
    ghost use Rattle.rules.specs.Invariants.{Each};
    ghost use Rattle.deck.specs.Index.{hash_of};
    ghost use Rattle.deck.specs.Rows.{numbers};

    // The place behind the line feed.
    pub fn behind(&self) -> usize
        requires { self.now.line.begin + 11 * self.now.line.fields < length self.now.deck.now }
        ensures { result ≡ self.now.line.begin + 11 * self.now.line.fields + 1 }
    {
        self.line.begin + 11 * self.line.fields + 1
    }

    // Number k.
    pub fn field(&self, k: usize) -> usize
        requires { k < self.now.line.fields }
        ensures { result ≡ get_or (numbers self.now) k 0 }
    {
        text::field(self.deck, self.line.begin, self.line.fields, k)
    }

    // The same, and 0 where the line has no number k.
    pub fn entry(&self, k: usize) -> usize
        ensures { result ≡ get_or (numbers self.now) k 0 }
    {
        text::entry(self.deck, self.line.begin, self.line.fields, k)
    }

    pub fn below(&self, k: usize, bound: usize) -> bool
        ensures { result ≡ ltb (get_or (numbers self.now) k 0) bound }
    {
        self.entry(k) < bound
    }

    pub fn role_below(&self, k: usize, roles: usize) -> bool
        ensures { result ≡ ltb (role_id (role_at (numbers self.now) k)) roles }
    {
        self.entry(k) / 2 < roles
    }

    // The numbers from `from` on pass the test.
    pub fn all<F: Fn(usize) -> bool>(&self, from: usize, test: F) -> bool
        requires { Each (F.pre test) (drop from (numbers self.now)) }
        ensures { (q : ℕ → Bool) → ((x : ℕ) (b : Bool) → x < 2 ^ 64 → F.pre test x → F.post test x b → b ≡ q x) → result ≡ all q (drop from (numbers self.now)) }
    {
        (from..self.line.fields).map(|k| self.field(k)).all(test)
    }

    pub fn all_below(&self, from: usize, bound: usize) -> bool
        ensures { result ≡ all (λ c. ltb c bound) (drop from (numbers self.now)) }
    {
        self.all(from, |c| c < bound)
    }

    pub fn all_roles_below(&self, from: usize, roles: usize) -> bool
        ensures { result ≡ all (λ c. ltb (role_id (role_of c)) roles) (drop from (numbers self.now)) }
    {
        self.all(from, |code| code / 2 < roles)
    }

    // The numbers from 1 on rise strictly.
    pub fn rises(&self) -> bool
        ensures { result ≡ rising (drop 1 (numbers self.now)) }
    {
        let mut last = self.entry(1);
        for k in 2..self.line.fields {
            let x = self.field(k);
            if x <= last {
                return false;
            }
            last = x;
        }
        true
    }

    // The two lines have the same numbers. A line is bytes of the deck, so that no derived equality has it.
    pub fn same_numbers(&self, other: &Row) -> bool
        ensures { result ≡ same_words (numbers self.now) (numbers other.now) }
    {
        self.line.fields == other.line.fields
            && (0..self.line.fields).all(|k| self.field(k) == other.field(k))
    }

    // Not shared with `branches::filter::hash`: its factor, modulus and words are others, and each would be an argument.
    pub fn hash(&self) -> usize
        ensures value { result ≡ hash_of (numbers self.now) }
        ensures upper_bound { result < 1024 }
    {
        let mut h: usize = 0;
        for k in 0..self.line.fields {
            h = 1640531527 * (h + self.field(k)) % 4294967296;
        }
        h / 4194304
    }
}

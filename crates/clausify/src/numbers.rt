// The ten numbers of an accepted run, and these as words.
ghost use Rattle.std.specs.Prelude.{◌≡◌, ◌≤◌, length};
ghost use Rattle.std.proofs.lemmas.List.Edits.{sets};
ghost use Rattle.words.specs.Words.{words};
ghost use Rattle.clausify.specs.Answer.{ten_of};

use statistics::ClauseStats;

// The statistics, the fresh ids and the visits.
#[derive(Clone, Copy)]
pub struct Numbers {
    pub stats: ClauseStats,
    pub fresh_ids: u32,
    pub visits: u32,
}

impl Numbers {
    // The eight statistics in their order, fresh ids, visits.
    pub fn words(self) -> [u32; 10]
        ensures { result ≡ ten_of self.stats self.fresh_ids self.visits }
    {
        [
            self.stats.total,
            self.stats.horn,
            self.stats.disjunctive,
            self.stats.bottom_headed,
            self.stats.with_exists_head,
            self.stats.deferred,
            self.stats.decomposed,
            self.stats.refused,
            self.fresh_ids,
            self.visits,
        ]
    }
}

// The table's first ten words.
pub fn put_ten(numbers: &mut [u8], n: Numbers)
    requires { 40 ≤ length numbers.old }
    ensures { words numbers.new ≡ sets (words numbers.old) 0 (ten_of n.stats n.fresh_ids n.visits) }
{
    for (i, w) in n.words().iter().enumerate() {
        words::put_word(numbers, i, *w);
    }
}

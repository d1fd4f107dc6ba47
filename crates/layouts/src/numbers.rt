// The numbers of a line, which stand in scratch from word LINE on.
// `all_below` and `rises` stay beside those of a deck's row: these numbers are words and begin at 2, a row's are read from its columns
// and begin at 1, so that a trait of both would have as many methods as it shares.
ghost use Rattle.std.specs.Prelude.{◌≤◌, length};
ghost use Rattle.rules.specs.Run.{scratch_bytes};
ghost use Rattle.sets.specs.Places.{line_words};

use crate::check;
use sets::places;

#[derive(Clone, Copy)]
pub struct Numbers<'a> {
    pub scratch: &'a [u8],
    pub count: usize,
    pub ghost room: { scratch_bytes ≤ length scratch.now },
    pub ghost few: { count ≤ line_words },
}

impl<'a> Numbers<'a> {
    ghost use Rattle.std.specs.Prelude.{◌≡◌, true, ◌<◌, ltb, get_or, drop};
    ghost use Rattle.rules.specs.Base.{all, contains};
    ghost use Rattle.rules.specs.Deck.{rising};
    ghost use Rattle.states.specs.State.{rising_pairs};
    ghost use Rattle.states.specs.Masks.{mask_of};
    ghost use Rattle.layouts.specs.Numbers.{numbers};

    // Number k.
    pub fn number(&self, k: usize) -> u32
        requires { k < self.now.count }
        ensures { result ≡ get_or (numbers self.now) k 0 }
    {
        words::get_word(self.scratch, places::LINE + k)
    }

    // The numbers behind kind and id are elements.
    pub fn all_below(&self, size: u32) -> bool
        ensures { result ≡ all (λ e. ltb e size) (drop 2 (numbers self.now)) }
    {
        (2..self.count).all(|k| self.number(k) < size)
    }

    // They rise strictly.
    pub fn rises(&self) -> bool
        ensures { result ≡ rising (drop 2 (numbers self.now)) }
    {
        if self.count <= 2 {
            return true;
        }
        let mut last = self.number(2);
        for k in 3..self.count {
            let x = self.number(k);
            if x <= last {
                return false;
            }
            last = x;
        }
        true
    }

    // They are pairs that rise.
    pub fn pairs_rise(&self) -> bool
        ensures { result ≡ rising_pairs (drop 2 (numbers self.now)) }
    {
        if self.count <= 2 {
            return true;
        }
        if self.count % 2 == 1 {
            return false;
        }
        let mut a = self.number(2);
        let mut b = self.number(3);
        for j in 2..self.count / 2 {
            let c = self.number(2 * j);
            let d = self.number(2 * j + 1);
            if !check::pair_above(a, b, c, d) {
                return false;
            }
            a = c;
            b = d;
        }
        true
    }

    // The elements of a line 51, as a set.
    pub fn set(&self, size: u32) -> u64
        requires some { 2 ≤ self.now.count }
        requires few { size ≤ 64 }
        requires below { all (λ e. ltb e size) (drop 2 (numbers self.now)) ≡ true }
        ensures { result ≡ mask_of size (contains (drop 2 (numbers self.now))) }
    {
        let mut set: u64 = 0;
        for k in (2..self.count).rev() {
            set = sets::with(set, self.number(k) as u64);
        }
        set
    }
}

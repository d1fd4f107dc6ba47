// The numbers of a line as words.
// A run stays its first word and its count, as in the definitions.
ghost use Rattle.std.specs.Prelude.{◌≡◌, ◌+◌, ◌*◌, ◌≤◌, length};
ghost use Rattle.std.proofs.lemmas.List.Edits.{sets};
ghost use Rattle.words.specs.Words.{words};
ghost use Rattle.rules.specs.Text.{most_number};
ghost use Rattle.rules.specs.Invariants.{Each};
ghost use Rattle.text.specs.Rows.{row_at};

// The n numbers of the line at p become the words from `at` on. (The two places and the count as `row_at` and `sets` have them: a part of
// each table would be made by each caller with the same numbers times eleven and four.)
pub fn put_row(deck: &[u8], p: usize, n: usize, scratch: &mut [u8], at: usize)
    requires { (p + 11 * n ≤ length deck.now) × (4 * (at + n) ≤ length scratch.old) × Each (λ x. x ≤ most_number) (row_at deck.now p n) }
    ensures { words scratch.new ≡ sets (words scratch.old) at (row_at deck.now p n) }
{
    for i in 0..n {
        let x = text::field(deck, p, n, i);
        words::put_word(scratch, at + i, x as u32);
    }
}

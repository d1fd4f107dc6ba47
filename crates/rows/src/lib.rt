// Rows of numbers in 11 columns, as a deck has them, written into lent bytes.
// A run stays its first word and its count, as in the definitions.
#![tactic(auto)]

ghost use Rattle.std.specs.Prelude.{◌≡◌, [], ◌∷◌, ◌+◌, ◌*◌, ◌≤◌, ◌<◌, length, take, drop};
ghost use Rattle.std.proofs.lemmas.List.Edits.{sets};
ghost use Rattle.words.specs.Words.{words};
ghost use Rattle.rules.specs.Lister.{field_text, fields_text};
ghost use Rattle.rows.specs.Rows.{columns_text, Put};

// Spaces and the digits of the number, the last of them at `at` + 10.
fn put_digits(out: &mut [u8], at: usize, number: u32)
    requires { at + 11 ≤ length out.old }
    ensures { out.new ≡ sets out.old at (field_text number) }
{
    out[at..at + 11].fill(b' ');
    let mut rest = number;
    // from the last digit on: how many they are is known at the end
    for j in (0..11).rev() {
        out[at + j] = b'0' + (rest % 10) as u8;
        rest /= 10;
        if rest == 0 {
            break;
        }
    }
}

// The number in the 11 bytes from `at` on; where they end.
pub fn put_field(out: &mut [u8], at: usize, number: u32) -> usize
    requires { at + 11 ≤ length out.old }
    ensures { Put out.old at (field_text number) out.new result }
{
    put_digits(out, at, number);
    at + 11
}

// The same where there is room for it; where there is none, nothing.
pub fn put_field_if_room(out: &mut [u8], at: usize, number: u32) -> usize
    ensures room { at + 11 ≤ length out.old → Put out.old at (field_text number) out.new result }
    ensures none { length out.old < at + 11 → (out.new ≡ out.old) × (result ≡ at) }
{
    if out.len() < 11 || out.len() - 11 < at {
        return at;
    }
    put_field(out, at, number)
}

// As put_field for n words of a table from word `from` on: they are bytes there, and put_line has numbers.
pub fn put_words(t: &[u8], from: usize, n: usize, out: &mut [u8], at: usize) -> usize
    requires { (4 * (from + n) ≤ length t.now) × (at + 11 * n ≤ length out.old) }
    ensures { Put out.old at (columns_text (take n (drop from (words t.now)))) out.new result }
{
    let mut p = at;
    for i in 0..n {
        p = put_field(out, p, words::get_word(t, from + i));
    }
    p
}

// The line feed.
pub fn end_line(out: &mut [u8], at: usize) -> usize
    requires { at < length out.old }
    ensures { Put out.old at (10 ∷ []) out.new result }
{
    out[at] = b'\n';
    at + 1
}

// A number, then n words of a table from word `from` on, as a line.
pub fn put_row(number: u32, t: &[u8], from: usize, n: usize, out: &mut [u8], at: usize) -> usize
    requires { (4 * (from + n) ≤ length t.now) × (at + 11 * n + 12 ≤ length out.old) }
    ensures { Put out.old at (fields_text (number ∷ take n (drop from (words t.now)))) out.new result }
{
    let p = put_field(out, at, number);
    let q = put_words(t, from, n, out, p);
    end_line(out, q)
}

// Numbers as a line.
pub fn put_line(out: &mut [u8], at: usize, numbers: &[u32]) -> usize
    requires { at + 11 * length numbers.now + 1 ≤ length out.old }
    ensures { Put out.old at (fields_text numbers.now) out.new result }
{
    let mut p = at;
    for number in numbers {
        p = put_field(out, p, *number);
    }
    end_line(out, p)
}

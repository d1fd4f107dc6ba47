// The cases' decks. Concept i is class i, as far as there are classes; the last class is the consequent.
ghost use Rattle.std.specs.Prelude.{◌≤◌, length};

// A line feed, where there is room. Replay's `put_byte` is its twin: one of both in `rows` would need a contract there, longer than
// its body.
fn end(out: &mut [u8], at: usize) -> usize {
    if out.len() <= at {
        return at;
    }
    rows::end_line(out, at)
}

// Numbers as a line, as far as there is room.
pub fn line(out: &mut [u8], at: usize, numbers: &[u32]) -> usize {
    let mut p = at;
    for number in numbers {
        p = rows::put_field_if_room(out, p, *number);
    }
    end(out, p)
}

// No individuals.
fn header(out: &mut [u8], classes: u32, roles: u32, options: u32) -> usize {
    line(out, 0, &[0, classes, 0, roles, options])
}

// The lines of each i from `from` on, below `to`.
fn lines<F: Fn(&mut [u8], usize, u32) -> usize>(
    out: &mut [u8],
    at: usize,
    from: u32,
    to: u32,
    one: F,
) -> usize
    requires { F.IsAlwaysCallable one }
{
    let mut p = at;
    for i in from..to {
        p = one(out, p, i);
    }
    p
}

// Class i.
fn class(out: &mut [u8], at: usize, i: u32) -> usize {
    line(out, at, &[3, i])
}

// Role 0 some concept i.
fn some(out: &mut [u8], at: usize, i: u32) -> usize {
    line(out, at, &[9, 0, i])
}

// Concept a below b.
fn below(out: &mut [u8], at: usize, a: u32, b: u32) -> usize {
    line(out, at, &[21, a, b])
}

// And (7) or Or (8) of the concepts from `from` on, below `to`.
fn list(out: &mut [u8], at: usize, kind: u32, from: u32, to: u32) -> usize {
    let mut p = rows::put_field_if_room(out, at, kind);
    for i in from..to {
        p = rows::put_field_if_room(out, p, i);
    }
    end(out, p)
}

// An Or of n classes below a class.
fn or_of(out: &mut [u8], n: u32) -> usize
    requires { n ≤ 128 }
{
    let p = header(out, n + 1, 0, 2);
    let q = lines(out, p, 0, n + 1, class);
    let r = list(out, q, 8, 0, n);
    below(out, r, n + 1, n)
}

// An And of two Ors of n classes below a class.
fn and_of_ors(out: &mut [u8], n: u32) -> usize
    requires { n ≤ 64 }
{
    let p = header(out, 2 * n + 1, 0, 2);
    let q = lines(out, p, 0, 2 * n + 1, class);
    let r = list(out, q, 8, 0, n);
    let s = list(out, r, 8, n, 2 * n);
    let t = list(out, s, 7, 2 * n + 1, 2 * n + 3);
    below(out, t, 2 * n + 3, 2 * n)
}

// n classes and one more, Some over each of the n, the And of the first m of these.
fn somes(out: &mut [u8], n: u32, m: u32, options: u32) -> usize
    requires { (n ≤ 128) × (m ≤ n) }
{
    let p = header(out, n + 1, 1, options);
    let q = lines(out, p, 0, n + 1, class);
    let r = lines(out, q, 0, n, some);
    list(out, r, 7, n + 1, n + 1 + m)
}

// An And of n Somes below a class, with option 1.
fn and_of_somes(out: &mut [u8], n: u32) -> usize
    requires { n ≤ 64 }
{
    let p = somes(out, n, n, 3);
    below(out, p, 2 * n + 1, n)
}

// The same for twelve over a reflexive role, without option 1; behind that `more` Somes, each below the class, and `before` of
// them before it.
fn unfolding(out: &mut [u8], before: u32, more: u32) -> usize
    requires { (before ≤ more) × (more ≤ 64) }
{
    let n = 12 + more;
    let p = somes(out, n, 12, 2);
    let q = line(out, p, &[35, 0]);
    let r = lines(
        out,
        q,
        n + 13,
        n + 13 + before,
        |o, at, i| below(o, at, i, n),
    );
    let s = below(out, r, 2 * n + 1, n);
    lines(out, s, n + 13, n + 13 + more, |o, at, i| below(o, at, i, n))
}

// A case is its number, as document 01 numbers them: an enum would repeat the numbers as names.
fn write(out: &mut [u8], case: u32) -> usize {
    match case {
        1 => or_of(out, 64),
        2 => or_of(out, 65),
        3 => and_of_ors(out, 8),
        4 => and_of_ors(out, 9),
        5 => and_of_somes(out, 7),
        6 => and_of_somes(out, 8),
        7 => unfolding(out, 0, 1),
        8 => unfolding(out, 1, 1),
        _ => unfolding(out, 0, 3),
    }
}

// The deck of a case; its bytes.
pub fn deck(out: &mut [u8], case: u32) -> usize
    ensures { result ≤ length out.new }
{
    write(out, case).min(out.len())
}

// The listing of an input of any length.
// Clauses that repeat stay clauses: each function asks for the length that it reads.
ghost use Rattle.std.specs.Prelude.{◌≡◌, List, ℕ, ◌<◌, ◌≤◌, length};
ghost use Rattle.rules.specs.Deck.{most_bytes};
ghost use Rattle.rules.specs.Lister.{lister_lengths, listing};
ghost use Rattle.rows.specs.Rows.{Put};
ghost use Rattle.clausify.specs.Entry.{lent};
ghost use Rattle.lister.specs.Cut.{Read};
ghost use Rattle.lister.specs.Text.{most_text};

use crate::lines;

// The first n bytes of the space were read. The space takes more than a deck may have, so they decide the whole input's listing. Both, and no
// slice of these bytes: that the input ended is told by the space's length.
pub fn list_input(
    space: &[u8],
    n: usize,
    clauses: &mut [u8],
    atoms: &mut [u8],
    deferrals: &mut [u8],
    scratch: &mut [u8],
    out: &mut [u8],
) -> usize
    requires most_bytes_in_bounds { (most_bytes < length space.now) × (n ≤ length space.now) }
    requires scratch_value { (lent clauses.old atoms.old deferrals.old scratch.old ≡ lister_lengths) × (most_text ≤ length out.old) }
    ensures { (input : List ℕ) → Read input space.now n → Put out.old 0 (listing input) out.new result }
{
    lines::put_listing(&space[..n], clauses, atoms, deferrals, scratch, out)
}

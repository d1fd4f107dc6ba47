// Refusal 1: the sizes of the lent tables, in bytes.
ghost use Rattle.std.specs.Prelude.{◌≡◌, ◌&&◌, ◌%◌, ◌/◌, ◌<◌, eqb, leb};
ghost use Rattle.rules.specs.Run.{sizes_ok};

use tables::read::{CLAUSE, DEFERRAL};

// Whole records of so many bytes, and at most so many.
fn table_ok(bytes: usize, record_bytes: usize, most: usize) -> bool
    requires { 0 < record_bytes }
    ensures { result ≡ (eqb (bytes % record_bytes) 0 && leb (bytes / record_bytes) most) }
{
    bytes % record_bytes == 0 && bytes / record_bytes <= most
}

// Whole records of at most 65,536 clauses, 262,144 atoms and 65,536 deferrals; scratch of its stated size or more.
pub fn sizes_ok(clauses: usize, atoms: usize, deferrals: usize, scratch: usize) -> bool
    ensures { result ≡ sizes_ok (record { clauses = clauses; atoms = atoms; deferrals = deferrals; scratch = scratch }) }
{
    table_ok(clauses, 4 * CLAUSE, 65536)
        && table_ok(atoms, 24, 262144)
        && table_ok(deferrals, 4 * DEFERRAL, 65536)
        && 1572864 <= scratch
}

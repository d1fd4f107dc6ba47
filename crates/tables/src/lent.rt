// The lent tables and the counters of what stands there.
ghost use Rattle.std.specs.Prelude.{length};
ghost use Rattle.tables.specs.Drawn.{Sized};

use ir::counters::Counters;

// The Rust's `&mut Clausifier` but for its pool.
#[derive(Drop)]
pub struct Tables<'a> {
    pub clauses: &'a mut [u8],
    pub atoms: &'a mut [u8],
    pub deferrals: &'a mut [u8],
    pub counters: Counters,
    pub ghost sized: { Sized (length clauses.now) (length atoms.now) (length deferrals.now) },
}

ghost use Rattle.std.specs.Prelude.{◌≡◌, ◌*◌, ◌<◌, ◌≤◌, length};

use cells::cell::Cell;
use tables::access::{pair_at, pair_place};

// The table of pairs of n places, which stands in the first cells of those that are lent.
#[derive(Drop)]
pub(crate) struct PairTable<'a, M, V> {
    cells: &'a mut [Cell<M, V>],
    pub(crate) n: usize,
    ghost few: { n ≤ 64 },
    ghost room: { n * n ≤ length cells.now },
}

impl<'a, M, V: Copy> PairTable<'a, M, V> {
    ghost use Rattle.tables.specs.Tables.{leg_in, ride_in};
    ghost use Rattle.rides.specs.Rounds.{Written, KindWritten, SameKinds};
    ghost use Rattle.rides.specs.PairTables.{TableChanged, RidesChanged};

    // The table in these cells.
    pub(crate) fn new(cells: &'a mut [Cell<M, V>], n: usize) -> PairTable<'a, M, V>
        requires { (n ≤ 64) × (n * n ≤ length cells.old) }
        ensures same { (result.n ≡ n) × (result.cells.ghost_name ≡ cells.entry.ghost_name) }
        ensures cells { result.cells.now ≡ cells.old }
    {
        PairTable { cells, n }
    }

    // How many places there are. The loops of `start_row`, `start` and `close` go over this answer: over `self.n`, which was tried,
    // their ends stay open.
    pub(crate) fn places(&self) -> usize
        ensures { result ≡ self.now.n }
    {
        self.n
    }

    // The ride from a to b.
    pub(crate) fn ride(&self, a: usize, b: usize) -> Option<V>
        requires { (a < self.now.n) × (b < self.now.n) }
        ensures { result ≡ ride_in self.now.cells.now self.now.n a b }
    {
        pair_at(self.cells, self.n, a, b).ride
    }

    // Writes the leg's value and the ride from a to b. Two writes: `Cell { leg, ride, ..cell }` gets no proof, since a cell
    // at a type parameter would be copied out from behind a reference.
    #[tactic(auto, using(crate::proofs::CellWrites::same_kinds, crate::proofs::CellWrites::left_by_write))]
    pub(crate) fn set_pair(&mut self, a: usize, b: usize, leg: Option<V>, ride: Option<V>)
        requires { (a < self.old.n) × (b < self.old.n) }
        ensures legs { Written leg_in self.old.n a b leg self.old.cells.now self.new.cells.now }
        ensures rides { Written ride_in self.old.n a b ride self.old.cells.now self.new.cells.now }
        ensures kinds { SameKinds self.old.n self.old.cells.now self.new.cells.now }
        ensures kept { TableChanged self.old self.new }
    {
        let i = pair_place(self.n, a, b);
        self.cells[i].leg = leg;
        self.cells[i].ride = ride;
    }

    // Writes the ride from a to b. It and `set_kind` stand apart, since a contract names what is written.
    #[tactic(auto, using(crate::proofs::CellWrites::left_by_write))]
    pub(crate) fn set_ride(&mut self, a: usize, b: usize, ride: Option<V>)
        requires { (a < self.old.n) × (b < self.old.n) }
        ensures rides { Written ride_in self.old.n a b ride self.old.cells.now self.new.cells.now }
        ensures kept { RidesChanged self.old self.new }
    {
        let i = pair_place(self.n, a, b);
        self.cells[i].ride = ride;
    }

    // Writes the kind of a place.
    #[tactic(auto, using(crate::proofs::CellWrites::left_by_write))]
    pub(crate) fn set_kind(&mut self, p: usize, kind: u8)
        requires { p < self.old.n }
        ensures kind { KindWritten self.old.n p kind self.old.cells.now self.new.cells.now }
        ensures kept { TableChanged self.old self.new }
    {
        let i = pair_place(self.n, p, p);
        self.cells[i].kind = kind;
    }
}

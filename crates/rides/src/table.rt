ghost use Rattle.std.specs.Prelude.{◌≡◌, ◌+◌, ◌*◌, ◌<◌, ◌≤◌, length, nat_lt};
ghost use Rattle.plans.specs.Walks.{direct};
ghost use Rattle.rides.specs.Cells.{Fills};
ghost use Rattle.rides.specs.PairTables.{TableChanged, StartedTo};

use crate::pairs::PairTable;
use cells::cell::Cell;
use measures::Measure;
use streets::street::Street;

// The refusal of a table with more pairs of places than there are cells.
#[derive(Debug, PartialEq, Eq, Clone, Copy)]
pub struct TooFewCells;

// How many places a street has, with what its bound of 64 says of the table.
fn places_of<S: Street>(street: &S) -> usize
    ensures { (result ≡ (S.Street.meaning street.now).places) × (result ≤ 64) × (result * result ≤ 4096) }
{
    street.places()
}

// The value of the leg from a to b, none without a leg.
fn leg_value<M: Measure, S: Street>(street: &S, a: usize, b: usize) -> Option<M::Value>
    ensures { result ≡ direct M.Measure.meaning (S.Street.meaning street.now) a b }
{
    street.leg(a, b).map(|leg| M::leg(leg.climb, leg.seconds))
}

impl<'a, M: Measure> PairTable<'a, M, M::Value> {
    // One row at the start: of each pair from a the leg, and as its ride that leg alone; and the kind of a.
    fn start_row<S: Street>(&mut self, street: &S, a: usize)
        requires { a < self.old.n }
        ensures started { StartedTo M.Measure.meaning (S.Street.meaning street.now) a 0 self.old → StartedTo M.Measure.meaning (S.Street.meaning street.now) (a + 1) 0 self.new }
        ensures kept { TableChanged self.old self.new }
    {
        for b in 0..self.places() {
            let value = leg_value::<M, S>(street, a, b);
            self.set_pair(a, b, value, value);
        }
        self.set_kind(a, street.kind(a));
    }

    // All rows at the start.
    fn start<S: Street>(&mut self, street: &S)
        ensures started { StartedTo M.Measure.meaning (S.Street.meaning street.now) self.new.n 0 self.new }
        ensures kept { TableChanged self.old self.new }
    {
        for a in 0..self.places() {
            self.start_row(street, a);
        }
    }
}

// Whether there are fewer cells than pairs of n places. It is asked before the table is made: no clause could say of a `new`
// that refuses what the lent slice ends as.
fn lacks_room<M, V>(cells: &[Cell<M, V>], n: usize) -> bool
    requires { n * n ≤ 4096 }
    ensures { result ≡ nat_lt (length cells.now) (n * n) }
{
    cells.len() < n * n
}

// Fills the table of a street's legs and rides, n * n cells for n places, with the kinds of the places, and answers n.
// With fewer cells it is refused and writes nothing.
#[tactic(auto, using(crate::proofs::Starting::short_fills))]
pub fn fill<M: Measure, S: Street>(
    cells: &mut [Cell<M, M::Value>],
    street: &S,
) -> Result<usize, TooFewCells>
    ensures { Fills M.Measure.meaning (S.Street.meaning street.now) result cells.old cells.new }
{
    let n = places_of(street);
    if lacks_room(cells, n) {
        return Err(TooFewCells);
    }
    let mut table = PairTable::new(cells, n);
    table.start(street);
    table.close();
    Ok(n)
}

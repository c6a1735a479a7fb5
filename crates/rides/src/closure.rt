ghost use Rattle.std.specs.Prelude.{◌+◌, ◌<◌, ◌≤◌, Some};
ghost use Rattle.measures.specs.Optional.{both};
ghost use Rattle.streets.specs.Meaning.{StreetMeaning};
ghost use Rattle.plans.specs.Computed.{lesser};
ghost use Rattle.tables.specs.Tables.{ride_in};
ghost use Rattle.rides.specs.PairTables.{RidesChanged, FullBelow, RoundAt};
ghost use Rattle.rides.specs.Rounds.{Written};

use crate::pairs::PairTable;
use cells::order::lesser;
use measures::optional::join_options;
use measures::{Measure, laws};

impl<'a, M: Measure> PairTable<'a, M, M::Value> {
    // One pair: the way by k, which begins with `first`, is taken where it is the lesser.
    fn relax(&mut self, k: usize, i: usize, j: usize, first: M::Value)
        requires { (i < self.old.n) × (j < self.old.n) × (k < self.old.n) }
        ensures rides { Written ride_in self.old.n i j (lesser M.Measure.meaning.before (ride_in self.old.cells.now self.old.n i j) (both M.Measure.meaning.joined (Some first) (ride_in self.old.cells.now self.old.n k j))) self.old.cells.now self.new.cells.now }
        ensures kept { RidesChanged self.old self.new }
    {
        let through = join_options::<M>(Some(first), self.ride(k, j));
        let best = lesser::<M>(self.ride(i, j), through);
        self.set_ride(i, j, best);
    }

    // One row of round k: the pairs from i. Without a way from i to k there is nothing to do.
    #[tactic(auto, using(crate::proofs::Rounding::row_end, crate::proofs::Rounding::row_skip))]
    fn relax_row(&mut self, k: usize, i: usize)
        requires { (i < self.old.n) × (k < self.old.n) }
        ensures rides { (s : StreetMeaning) → RoundAt M.Measure.meaning s k i 0 self.old → RoundAt M.Measure.meaning s k (i + 1) 0 self.new }
        ensures kept { RidesChanged self.old self.new }
    {
        laws::<M>();
        let Some(first) = self.ride(i, k) else {
            return;
        };
        for j in 0..self.n {
            self.relax(k, i, j, first);
        }
    }

    // Round k: ways by place k are taken where they are the lesser.
    #[tactic(auto, using(crate::proofs::Rounding::round_start, crate::proofs::Rounding::round_end))]
    fn relax_round(&mut self, k: usize)
        requires { k < self.old.n }
        ensures rides { (s : StreetMeaning) → FullBelow M.Measure.meaning s k self.old → FullBelow M.Measure.meaning s (k + 1) self.new }
        ensures kept { RidesChanged self.old self.new }
    {
        for i in 0..self.n {
            self.relax_row(k, i);
        }
    }

    // From the legs alone to the best by all places: about n * n * n joins.
    pub(crate) fn close(&mut self)
        ensures rides { (s : StreetMeaning) → FullBelow M.Measure.meaning s 0 self.old → FullBelow M.Measure.meaning s self.old.n self.new }
        ensures kept { RidesChanged self.old self.new }
    {
        for k in 0..self.places() {
            self.relax_round(k);
        }
    }
}

ghost use Rattle.std.specs.Prelude.{◌≡◌, ℕ, ◌<◌, length, if◌then◌else◌, Some, Option};
ghost use Rattle.measures.specs.Optional.{both};
ghost use Rattle.jobs.specs.Jobs.{stops_of};
ghost use Rattle.jobs.specs.Trees.{child_in};
ghost use Rattle.measures.specs.Scales.{at_most, optional};
ghost use Rattle.trees.specs.Tasks.{Task};
ghost use Rattle.trees.specs.Minima.{IsLeast};
ghost use Rattle.trees.specs.Subtrees.{SubtreeLeast};
ghost use Rattle.tables.specs.Tables.{own_in, best_in, hang_in, Stays};
ghost use Rattle.minima.specs.Tables.{link_in, hanging_in, RowIn, Holds, task_in, Tables};

use crate::board::{Board, BoardMut};
use cells::order::lesser;
use measures::Measure;
use measures::optional::join_options;

impl<'a, M: Measure> Board<'a, M, M::Value> {
    // A sum with what stop c adds to the subtree of stop s at place q, nothing where it does not hang on s.
    fn with_hanging(&self, sum: Option<M::Value>, s: usize, q: usize, c: usize) -> Option<M::Value>
        requires { (q < self.now.n) × (c < length (stops_of self.now.job.now)) }
        ensures { result ≡ both M.Measure.meaning.joined sum (if child_in (stops_of self.now.job.now) s c then hang_in self.now.cells.now self.now.n c q else Some M.Measure.meaning.nought) }
    {
        if self.job.hangs_on(c, s) {
            join_options::<M>(sum, self.at(c, q).hang)
        } else {
            sum
        }
    }

    // The least value of the subtree of stop s at place q, where the stops that hang on it, all of greater numbers, have theirs.
    // No `total`, which was tried: it joins once for every stop, and this for those that hang on s alone. By number: the tables
    // are read by it, and `hangs_on` asks for it.
    #[tactic(auto, using(crate::proofs::Rows::hung_none, crate::proofs::Rows::childless, crate::proofs::Rows::hung_more))]
    pub fn best_value(&self, s: usize, q: usize) -> Option<M::Value>
        requires { (s < length (stops_of self.now.job.now)) × (q < self.now.n) }
        ensures { result ≡ both M.Measure.meaning.joined (own_in self.now.cells.now self.now.n s q) (hanging_in M.Measure.meaning self.now.cells.now self.now.n (stops_of self.now.job.now) s q) }
    {
        let mut sum = self.at(s, q).own;
        for c in s + 1..self.job.len() {
            sum = self.with_hanging(sum, s, q, c);
        }
        sum
    }

    // The value of the link of stop s from place p to place q, with the least of its subtree there.
    fn through(&self, s: usize, p: usize, q: usize) -> Option<M::Value>
        requires { (s < length (stops_of self.now.job.now)) × (p < self.now.n) × (q < self.now.n) }
        ensures { result ≡ both M.Measure.meaning.joined (link_in self.now.cells.now self.now.n (stops_of self.now.job.now) s p q) (best_in self.now.cells.now self.now.n s q) }
    {
        join_options::<M>(self.link(s, p, q), self.at(s, q).best)
    }

    // The least value of the link and the subtree of stop s below place p of its parent.
    fn hang_value(&self, s: usize, p: usize) -> Option<M::Value>
        requires { (s < length (stops_of self.now.job.now)) × (p < self.now.n) }
        ensures { IsLeast (optional M.Measure.meaning) self.now.n (λ q. both M.Measure.meaning.joined (link_in self.now.cells.now self.now.n (stops_of self.now.job.now) s p q) (best_in self.now.cells.now self.now.n s q)) result }
    {
        let mut least = None;
        for q in 0..self.n {
            least = lesser::<M>(least, self.through(s, p, q));
        }
        least
    }
}

impl<'a, M: Measure> BoardMut<'a, M, M::Value> {
    ghost use Rattle.minima.specs.Boards.{SameBoard, BestTo, HangTo};

    // Fills in the least values of the subtree of stop s, place by place. It, `fill_hang` and the row of own values in
    // `fitting` are a loop each: with one loop over a trait of columns, which was tried, value, writer and facts of each
    // column are members of the trait, and the three are longer than the loops.
    #[tactic(auto, using(crate::proofs::Filling::best_none))]
    fn fill_best(&mut self, s: usize)
        requires { s < length (stops_of self.old.job.now) }
        ensures { BestTo M.Measure.meaning s self.old.n self.old self.new }
    {
        for place in 0..self.n {
            let value = self.board().best_value(s, place);
            self.set_best(s, place, value);
        }
    }

    // Fills in the least values of the link and the subtree of stop s, place by place of its parent.
    #[tactic(auto, using(crate::proofs::Filling::hang_none))]
    fn fill_hang(&mut self, s: usize)
        requires { s < length (stops_of self.old.job.now) }
        ensures { HangTo M.Measure.meaning s self.old.n self.old self.new }
    {
        for p in 0..self.n {
            let value = self.board().hang_value(s, p);
            self.set_hang(s, p, value);
        }
    }

    // Fills in the minima of all subtrees, from the last stop to the first.
    pub fn fill_minima(&mut self)
        ensures same { SameBoard self.old self.new }
        ensures stays { Stays self.old.cells.now self.new.cells.now }
        ensures rows { let o = self.old in (s : ℕ) → s < length (stops_of o.job.now) → RowIn M.Measure.meaning self.new.cells.now o.n (stops_of o.job.now) s }
        ensures fits { let o = self.old in Holds o.cells.now o.n (stops_of o.job.now) (task_in o.cells.now o.n (stops_of o.job.now)) }
        ensures tables { let o = self.old in (τ : Task (Option M.Value)) → Holds o.cells.now o.n (stops_of o.job.now) τ → Tables M.Measure.meaning self.new.cells.now o.n (stops_of o.job.now) τ (hang_in self.new.cells.now o.n) }
        ensures least { let o = self.old in (τ : Task (Option M.Value)) → Holds o.cells.now o.n (stops_of o.job.now) τ → (s : ℕ) → s < length (stops_of o.job.now) → SubtreeLeast (optional M.Measure.meaning) τ s (best_in self.new.cells.now o.n s) (hang_in self.new.cells.now o.n s) }
    {
        for s in (0..self.job.len()).rev() {
            self.fill_best(s);
            self.fill_hang(s);
        }
    }
}

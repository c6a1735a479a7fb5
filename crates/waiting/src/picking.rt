ghost use Rattle.std.specs.Prelude.{◌≡◌, ℕ, ◌+◌, ◌*◌, ◌<◌, ◌≤◌, true, length, IfSome, None, MatchOption, ◌≢◌};
ghost use Rattle.cells.specs.Cells.{entry_before};
ghost use Rattle.tables.specs.Tables.{entry_in};
ghost use Rattle.waiting.specs.Queues.{row_start, Placed, Queue, FirstWaiting, NextPlan};

use crate::queue::Entries;
use cells::cell::Cell;
use least::least_of;
use measures::{Measure, laws};
use tables::access::cell_at;

// The least of the waiting subspaces in the cells from one to another, counted from the first of them; none where
// there is no cell. It and `first_in` take the cells' numbers and no slice, since the clauses above speak of those numbers.
pub fn least_in<'a, M: Measure>(
    cells: &'a [Cell<M, M::Value>],
    from: usize,
    to: usize,
) -> Option<usize>
where
    M: 'a,
    M::Value: 'a,
    requires { (from ≤ to) × (to ≤ length cells.now) }
    ensures { MatchOption result (to ≤ from) (λ i. (from + i < to) × ((v : ℕ) → from + v < to → entry_before M.Measure.meaning.before (entry_in cells.now (from + i)) (entry_in cells.now (from + v)) ≡ true)) }
{
    least_of(&cells[from..to])
}

// Of the waiting subspaces in so many cells from one on, the one whose plan comes first, counted from the first of them;
// none where none has a plan.
#[tactic(auto, using(crate::proofs::Leasts::none_behind, crate::proofs::Leasts::none_waits))]
pub fn first_in<'a, M: Measure>(
    cells: &'a [Cell<M, M::Value>],
    from: usize,
    count: usize,
) -> Option<usize>
where
    M: 'a,
    M::Value: 'a,
    requires { from + count ≤ length cells.now }
    ensures { FirstWaiting M.Measure.meaning cells.now from count result }
{
    let w = least_in::<M>(cells, from, from + count)?;
    cell_at(cells, from + w).entry.score.map(|_| w)
}

impl Entries {
    // Where the first plan waits that is not given, or none where no plan is left.
    #[tactic(auto, using(crate::proofs::Stepping::room_most, crate::proofs::Leasts::some_next, crate::proofs::Leasts::ready_next, crate::proofs::Leasts::next_plan))]
    pub fn find_next<'a, M: Measure>(&self, cells: &'a [Cell<M, M::Value>]) -> Option<usize>
    where
        M: 'a,
        M::Value: 'a,
        requires { let e = self.now in e.base + e.k * e.m ≤ length cells.now }
        ensures some { let e = self.now in IfSome result (λ w. (w < e.k * e.m) × ((entry_in cells.now (e.base + w)).score ≢ None)) }
        ensures ready { let e = self.now in (n rows : ℕ) → Queue cells.now e.base n e.m e.k rows → IfSome result (λ w. (w < row_start e.m e.k rows) × Placed n e.m (entry_in cells.now (e.base + w))) }
        ensures plan { let e = self.now in NextPlan M.Measure.meaning cells.now e.base e.m e.k result }
    {
        laws::<M>();
        first_in::<M>(cells, self.base, self.k * self.m)
    }
}

ghost use Rattle.std.specs.Prelude.{◌≡◌, ℕ, ◌+◌, ◌-◌, ◌*◌, ◌<◌, ◌≤◌, true, not, ◌⊎◌, length, IfSome, None, MatchOption, ◌≢◌};
ghost use Rattle.cells.specs.Cells.{entry_before};
ghost use Rattle.tables.specs.Tables.{entry_in};
ghost use Rattle.waiting.specs.Queues.{Placed};
ghost use Rattle.leaders.specs.Leaders.{Earliest, Exchanged, Led, Promoted, Rows, HeadPlan};

use cells::cell::Cell;
use least::TotalOrder;
use measures::{Measure, laws};
use tables::access::{cell_at, set_entry};
use waiting::picking::{first_in, least_in};
use waiting::queue::Entries;

// Two waiting subspaces change places; nothing else changes. No `swap`, which would move the other parts of the cells too.
#[tactic(auto, unfolding(tables::specs::Tables::entry_in))]
fn exchange<M, V: Copy>(cells: &mut [Cell<M, V>], a: usize, b: usize)
    requires { (a < length cells.old) × (b < length cells.old) }
    ensures { Exchanged cells.old cells.new a b }
{
    let one = cell_at(cells, a).entry;
    let other = cell_at(cells, b).entry;
    set_entry(cells, b, one);
    set_entry(cells, a, other);
}

// Whether the plan in one cell comes after that in another.
fn comes_after<M: Measure>(cells: &[Cell<M, M::Value>], a: usize, b: usize) -> bool
    requires { (a < length cells.now) × (b < length cells.now) }
    ensures { result ≡ not (entry_before M.Measure.meaning.before (entry_in cells.now a) (entry_in cells.now b)) }
{
    !cell_at(cells, a).at_or_before(cell_at(cells, b))
}

// The earlier of two waiting subspaces goes into the first cell, and the other into the second.
#[tactic(auto, using(crate::proofs::Heads::other_way))]
fn lead<M: Measure>(cells: &mut [Cell<M, M::Value>], head: usize, at: usize)
    requires { (head < length cells.old) × (at < length cells.old) }
    ensures led { entry_before M.Measure.meaning.before (entry_in cells.new head) (entry_in cells.new at) ≡ true }
    ensures moved { (cells.new ≡ cells.old) ⊎ Exchanged cells.old cells.new head at }
{
    laws::<M>();
    if comes_after::<M>(cells, head, at) {
        exchange(cells, head, at);
    }
}

// The waiting subspaces of k plans, in rows in lent cells.
#[derive(Drop)]
pub struct RowsMut<'a, M, V> {
    cells: &'a mut [Cell<M, V>],
    entries: Entries,
    ghost room: { entries.base + entries.k * entries.m ≤ length cells.now },
}

impl<'a, M: Measure> RowsMut<'a, M, M::Value> {
    ghost use Rattle.leaders.specs.Lent.{SameRows};

    // The rows of these entries in these cells.
    pub fn new(cells: &'a mut [Cell<M, M::Value>], entries: Entries) -> RowsMut<'a, M, M::Value>
        requires { entries.base + entries.k * entries.m ≤ length cells.old }
        ensures same { (result.entries ≡ entries) × (result.cells.ghost_name ≡ cells.entry.ghost_name) }
        ensures cells { result.cells.now ≡ cells.old }
    {
        RowsMut { cells, entries }
    }

    // The earliest entry of a row behind its head, counted from the first behind it; none where the head is all of the row.
    #[tactic(auto, using(crate::proofs::Heads::earliest_is))]
    fn earliest_behind(&self, row: usize) -> Option<usize>
        requires { row < self.now.entries.k }
        ensures { let e = self.now.entries in MatchOption result (e.m ≤ 1) (λ u. Earliest M.Measure.meaning self.now.cells.now e.base e.m e.k row u) }
    {
        let start = self.entries.behind(row);
        least_in::<M>(self.cells, start, start + (self.entries.m - 1))
    }

    // The earlier of a row's head and its entry u behind the head becomes the head.
    fn lead_row(&mut self, row: usize, u: usize)
        requires { let e = self.old.entries in (row < e.k) × (u < e.m - 1) }
        ensures led { let e = self.old.entries in Earliest M.Measure.meaning self.old.cells.now e.base e.m e.k row u → Led M.Measure.meaning self.new.cells.now e.base e.m e.k row }
        ensures promoted { let e = self.old.entries in Promoted self.old.cells.now self.new.cells.now e.base e.m e.k row }
        ensures kept { SameRows self.old self.new }
    {
        let at = self.entries.behind(row) + u;
        lead::<M>(self.cells, self.entries.base + row, at);
    }

    // The earliest entry of a row becomes its head.
    #[tactic(auto, using(crate::proofs::Heads::no_promotion))]
    pub fn promote(&mut self, row: usize)
        requires { row < self.old.entries.k }
        ensures led { let e = self.old.entries in Led M.Measure.meaning self.new.cells.now e.base e.m e.k row }
        ensures promoted { let e = self.old.entries in Promoted self.old.cells.now self.new.cells.now e.base e.m e.k row }
        ensures kept { SameRows self.old self.new }
    {
        if let Some(u) = self.earliest_behind(row) {
            self.lead_row(row, u);
        }
    }
}

// Where the first plan waits that is not given, or none where no plan is left. Only the heads of the rows are looked at.
#[tactic(auto, using(crate::proofs::Foremost::heads_le, crate::proofs::Foremost::some_head, crate::proofs::Foremost::ready_head, crate::proofs::Foremost::head_plan))]
pub fn find_head<'a, M: Measure>(cells: &'a [Cell<M, M::Value>], entries: &Entries) -> Option<usize>
where
    M: 'a,
    M::Value: 'a,
    requires { let e = entries.now in e.base + e.k * e.m ≤ length cells.now }
    ensures some { let e = entries.now in IfSome result (λ w. (w < e.k) × ((entry_in cells.now (e.base + w)).score ≢ None)) }
    ensures ready { let e = entries.now in (n rows : ℕ) → Rows cells.now e.base n e.m e.k rows → IfSome result (λ w. (w ≤ rows) × Placed n e.m (entry_in cells.now (e.base + w))) }
    ensures plan { let e = entries.now in HeadPlan M.Measure.meaning cells.now e.base e.m e.k result }
{
    laws::<M>();
    first_in::<M>(cells, entries.base, entries.k)
}

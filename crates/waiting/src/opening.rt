ghost use Rattle.std.specs.Prelude.{◌≡◌, ℕ, ◌+◌, ◌*◌, ◌<◌, ◌≤◌, [], length, None, Option};
ghost use Rattle.jobs.specs.Jobs.{stops_of};
ghost use Rattle.measures.specs.Scales.{optional};
ghost use Rattle.trees.specs.Tasks.{Task};
ghost use Rattle.trees.specs.Rounds.{Partition};
ghost use Rattle.tables.specs.Tables.{entry_in, Kept};
ghost use Rattle.minima.specs.Tables.{Tables};
ghost use Rattle.waiting.specs.Queues.{waiting_in, TablesKept, NoSpace, Queue, FreeHeads};

use crate::queue::Waiting;
use bounds::prefixes::Prefix;
use cells::cell::{Cell, Entry};
use cells::places::Places;
use measures::Measure;
use minima::board::Board;
use search::firsts::first_plan;
use sets::PlaceSet;
use tables::access::set_entry;

// Leaves no subspace waiting in these cells, for m stops.
fn clear_all<M, V: Copy>(cells: &mut [Cell<M, V>], m: usize)
    ensures { (i : ℕ) → i < length cells.new → NoSpace m (entry_in cells.new i) }
{
    for cell in cells.iter_mut() {
        cell.entry = Entry::without_plan(m);
    }
}

// The same for the cells from one to another; no other cell changes.
fn clear<M, V: Copy>(cells: &mut [Cell<M, V>], from: usize, to: usize, m: usize)
    requires { (from ≤ to) × (to ≤ length cells.old) }
    ensures kept { Kept from cells.old cells.new }
    ensures empty { (i : ℕ) → from ≤ i → i < to → NoSpace m (entry_in cells.new i) }
{
    clear_all(&mut cells[from..to], m);
}

impl<'a> Waiting<'a> {
    // Lets all plans wait in one subspace, the head of row 0; nothing is given yet.
    pub fn let_all_wait<M: Measure>(&self, cells: &mut [Cell<M, M::Value>])
        requires { let o = self.now in (1 ≤ o.k) × (o.base + o.k * length (stops_of o.job.now) ≤ length cells.old) }
        ensures kept { Kept self.now.base cells.old cells.new }
        ensures tables { let o = self.now in TablesKept M.Measure.meaning o.n (stops_of o.job.now) cells.old cells.new }
        ensures queue { let o = self.now in Queue cells.new o.base o.n (length (stops_of o.job.now)) o.k 0 }
        ensures heads { let o = self.now in FreeHeads cells.new o.base (length (stops_of o.job.now)) o.k 0 }
        ensures stands { let o = self.now in (τ : Task (Option M.Value)) (H : ℕ → ℕ → Option M.Value) → Tables M.Measure.meaning cells.old o.n (stops_of o.job.now) τ H →
            Partition (optional M.Measure.meaning) τ H [] (o.k * length (stops_of o.job.now)) (waiting_in cells.new o.base) }
    {
        let m = self.job.len();
        let to = self.base + self.k * m;
        clear(cells, self.base, to, m);
        let places = Places::zero();
        let board = Board {
            cells,
            n: self.n,
            job: self.job,
        };
        let prefix = Prefix {
            board: &board,
            places: &places,
            i: 0,
        };
        let first = first_plan::<M>(&prefix, PlaceSet::empty());
        set_entry(cells, self.base, first);
    }
}

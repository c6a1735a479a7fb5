ghost use Rattle.std.specs.Prelude.{◌≡◌, ◌≤◌, length};
ghost use Rattle.streets.specs.Meaning.{StreetMeaning, Sound};
ghost use Rattle.jobs.specs.Jobs.{stops_of};
ghost use Rattle.rides.specs.Cells.{Filled};
ghost use Rattle.minima.specs.Boards.{SameBoard};
ghost use Rattle.turns.specs.Standing.{needed, Tabled, Waits, Begun};

use crate::order::Order;
use cells::cell::Cell;
use fitting::owns::fill_own;
use measures::Measure;
use minima::board::BoardMut;

// Fills in the job's own values and subtree minima over the street that the cells hold.
fn fill_tables<M: Measure>(board: &mut BoardMut<'_, M, M::Value>)
    ensures same { SameBoard board.old board.new }
    ensures tabled { let o = board.old in (street : StreetMeaning) → Sound street → street.places ≡ o.n → Filled M.Measure.meaning street o.cells.now → Tabled M.Measure.meaning street (stops_of o.job.now) o.n board.new.cells.now }
{
    fill_own::<M>(board);
    board.fill_minima();
}

impl<'a> Order<'a> {
    // Lets all plans wait again, over the tables that the cells hold: nothing is given yet.
    pub fn begin_again<M: Measure>(&self, cells: &mut [Cell<M, M::Value>])
        requires { let o = self.now in needed o.n (length (stops_of o.job.now)) o.k ≤ length cells.old }
        ensures { let o = self.now in Waits M.Measure.meaning (stops_of o.job.now) o.n o.k cells.old cells.new }
    {
        self.waiting().let_all_wait::<M>(cells);
    }

    // Works out the job's tables over the street that the cells hold, and lets all plans wait.
    pub fn begin<M: Measure>(&self, cells: &mut [Cell<M, M::Value>])
        requires { let o = self.now in needed o.n (length (stops_of o.job.now)) o.k ≤ length cells.old }
        ensures { let o = self.now in Begun M.Measure.meaning (stops_of o.job.now) o.n o.k cells.old cells.new }
    {
        let mut board = BoardMut::new(cells, self.n, self.job);
        fill_tables::<M>(&mut board);
        self.begin_again::<M>(cells);
    }
}

ghost use Rattle.std.specs.Prelude.{◌≡◌, ◌≤◌, length};
ghost use Rattle.jobs.specs.Jobs.{stops_of};
ghost use Rattle.leaders.specs.Leaders.{Givable};
ghost use Rattle.turns.specs.Standing.{behind_tables, needed, Looked, Gave};

use crate::order::Order;
use cells::cell::Cell;
use leaders::advancing::advance;
use leaders::rows::find_head;
use measures::Measure;

impl<'a> Order<'a> {
    // Where the first plan waits that is not given, or none where no plan is left. Nothing is given by looking.
    pub fn look<'c, M: Measure>(&self, cells: &'c [Cell<M, M::Value>]) -> Option<usize>
    where
        M: 'c,
        M::Value: 'c,
        requires { let o = self.now in needed o.n (length (stops_of o.job.now)) o.k ≤ length cells.now }
        ensures { let o = self.now in Looked M.Measure.meaning (stops_of o.job.now) o.n o.k cells.now result }
    {
        find_head::<M>(cells, &self.waiting().entries())
    }

    // The plan of entry w is given, `rows` plans being given before it: the other plans that waited with it wait on.
    pub fn give<M: Measure>(&self, cells: &mut [Cell<M, M::Value>], rows: usize, w: usize)
        requires { let o = self.now in Givable cells.old o.n (stops_of o.job.now) (behind_tables o.n (length (stops_of o.job.now))) o.k rows w }
        ensures { let o = self.now in Gave M.Measure.meaning (stops_of o.job.now) o.n o.k rows w cells.old cells.new }
    {
        advance::<M>(cells, &self.waiting(), rows, w);
    }
}

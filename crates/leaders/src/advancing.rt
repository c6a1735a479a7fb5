ghost use Rattle.jobs.specs.Jobs.{stops_of};
ghost use Rattle.leaders.specs.Leaders.{Advanced, Givable};

use crate::rows::RowsMut;
use cells::cell::Cell;
use measures::Measure;
use waiting::queue::Waiting;

// The plan of head w is given: the other plans that waited with it wait on, and every row in use is led by its head. `rows` says how
// many plans were given, and w which one is given now: two values, and no pair.
pub fn advance<M: Measure>(
    cells: &mut [Cell<M, M::Value>],
    waiting: &Waiting<'_>,
    rows: usize,
    w: usize,
)
    requires { let o = waiting.now in Givable cells.old o.n (stops_of o.job.now) o.base o.k rows w }
    ensures { let o = waiting.now in Advanced M.Measure.meaning (stops_of o.job.now) o.n o.base o.k rows w cells.old cells.new }
{
    waiting.split_off::<M>(cells, rows, w);
    let mut lent = RowsMut::<M, M::Value>::new(cells, waiting.entries());
    lent.promote(w);
    lent.promote(rows);
}

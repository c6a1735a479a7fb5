ghost use Rattle.std.specs.Prelude.{◌≡◌, ◌*◌, ◌<◌, ◌≤◌, length};
ghost use Rattle.jobs.specs.Jobs.{stops_of};
ghost use Rattle.tables.specs.Tables.{leg_in, ride_in};
ghost use Rattle.minima.specs.Tables.{link_in};

use cells::cell::Cell;
use jobs::job::Job;
use jobs::stops::Link;
use tables::access::pair_at;

// The value of a stop's link from its parent's place to its own: of a direct one that leg's, of a ride the best walk's.
// It is public beside `Board::link`, since it asks only for the cells of the pairs, which is less than a board asks.
pub fn link_at<M, V: Copy>(
    cells: &[Cell<M, V>],
    n: usize,
    job: &Job,
    s: usize,
    p: usize,
    q: usize,
) -> Option<V>
    requires { (p < n) × (q < n) × (n ≤ 64) × (n * n ≤ length cells.now) }
    ensures { result ≡ link_in cells.now n (stops_of job.now) s p q }
{
    let pair = pair_at(cells, n, p, q);
    match job.tie(s)?.link {
        Link::Direct => pair.leg,
        Link::Ride => pair.ride,
    }
}

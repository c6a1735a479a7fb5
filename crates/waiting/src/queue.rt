ghost use Rattle.std.specs.Prelude.{◌≡◌, ◌+◌, ◌-◌, ◌*◌, ◌<◌, ◌≤◌, length};
ghost use Rattle.jobs.specs.Jobs.{stops_of};
ghost use Rattle.waiting.specs.Queues.{row_start, Splittable, SplitOff};

use crate::parts::{part_at, split_rest};
use cells::cell::Cell;
use jobs::job::Job;
use measures::Measure;
use minima::board::BoardMut;
use tables::access::cell_at;

// Where the waiting subspaces of k plans stand, for m stops: k x m entries from cell `base` on, first the heads of the rows.
#[derive(Clone, Copy)]
pub struct Entries {
    pub base: usize,
    pub m: usize,
    pub k: usize,
    pub ghost some: { 1 ≤ m },
    pub ghost few: { m ≤ 12 },
    pub ghost most: { k ≤ 256 },
    pub ghost low: { base ≤ 4864 },
}

impl Entries {
    // Where the entries of a row begin that are not its head.
    #[tactic(auto, using(crate::proofs::Stepping::row_ends))]
    pub fn behind(&self, row: usize) -> usize
        requires { row < self.now.k }
        ensures { (result ≡ self.now.base + row_start self.now.m self.now.k row) × (result + (self.now.m - 1) ≤ self.now.base + self.now.k * self.now.m) × (result ≤ self.now.base + 3072) }
    {
        self.base + (self.k + row * (self.m - 1))
    }
}

// Where the plans of a job over n places wait, of which k are wanted: in the cells from `base` on, behind the tables.
#[derive(Clone, Copy)]
pub struct Waiting<'a> {
    pub n: usize,
    pub job: &'a Job,
    pub base: usize,
    pub k: usize,
    pub ghost few: { n ≤ 64 },
    pub ghost behind: { n * n + length (stops_of job.now) * n ≤ base },
    pub ghost low: { base ≤ 4864 },
    pub ghost most: { k ≤ 256 },
}

impl<'a> Waiting<'a> {
    // Where the waiting subspaces stand.
    pub fn entries(&self) -> Entries
        ensures { let o = self.now in (result.base ≡ o.base) × (result.m ≡ length (stops_of o.job.now)) × (result.k ≡ o.k) }
    {
        Entries {
            base: self.base,
            m: self.job.len(),
            k: self.k,
        }
    }

    // The plan of entry w is given: the part of its subspace at its own depth takes its place, and the others go into row
    // `rows`.
    pub fn split_off<M: Measure>(&self, cells: &mut [Cell<M, M::Value>], rows: usize, w: usize)
        requires { let o = self.now in Splittable cells.old o.n (stops_of o.job.now) o.base o.k rows w }
        ensures { let o = self.now in SplitOff M.Measure.meaning (stops_of o.job.now) o.n o.base o.k rows w cells.old cells.new }
    {
        let at = self.base + w;
        let old = cell_at(cells, at).entry;
        let mut board = BoardMut::new(cells, self.n, self.job);
        let here = part_at::<M>(&board.board(), &old.places, old.depth, old.excluded);
        board.set_entry(at, here);
        let start = self.entries().behind(rows);
        split_rest::<M>(&mut board, start, &old);
    }
}

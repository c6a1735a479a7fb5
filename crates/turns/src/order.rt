ghost use Rattle.std.specs.Prelude.{◌≡◌, ◌*◌, ◌≤◌, length};
ghost use Rattle.jobs.specs.Jobs.{stops_of};
ghost use Rattle.turns.specs.Standing.{behind_tables, needed};

use jobs::job::Job;
use waiting::queue::Waiting;

// What is asked for: the plans of a job over n places, of which k are wanted. That there are cells enough stands in the calls:
// `look` only reads the cells, so there would have to be two structs over them, one to read and one to write, for four calls.
#[derive(Clone, Copy)]
pub struct Order<'a> {
    pub n: usize,
    pub job: &'a Job,
    pub k: usize,
    pub ghost few: { n ≤ 64 },
    pub ghost some: { 1 ≤ k },
    pub ghost most: { k ≤ 256 },
}

impl<'a> Order<'a> {
    // Where the waiting subspaces begin, behind the tables.
    pub fn base(&self) -> usize
        ensures { (result ≡ behind_tables self.now.n (length (stops_of self.now.job.now))) × (result ≤ 4864) }
    {
        self.n * self.n + self.job.len() * self.n
    }

    // What waits of the plans, in the cells behind the tables.
    pub fn waiting(&self) -> Waiting<'a>
        ensures { let o = self.now in (result.n ≡ o.n) × (result.job.now ≡ o.job.now) × (result.base ≡ behind_tables o.n (length (stops_of o.job.now))) × (result.k ≡ o.k) }
    {
        Waiting {
            n: self.n,
            job: self.job,
            base: self.base(),
            k: self.k,
        }
    }

    // How many cells are needed.
    pub fn room(&self) -> usize
        ensures { result ≡ needed self.now.n (length (stops_of self.now.job.now)) self.now.k }
    {
        self.base() + self.k * self.job.len()
    }
}

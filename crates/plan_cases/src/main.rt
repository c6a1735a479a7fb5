// Reads one case a line from standard input, a quarter and a job, and prints the job's plans over it in turn:
//   MEASURE WIDTH HEIGHT KINDS SECONDS CLIMB WANTED and then for each stop KIND PARENT LINK
// MEASURE is t (time), l (longest) or c (climb); LINK is d (direct) or r (ride), and of stop 0 both PARENT and LINK are -.
// Each plan has a line with its number, its score and its places; behind the plans stands how many were given and whether
// more are left. Then all plans wait again, and the first is given once more.
// All cases of a measure use the same cells, as the case before left them.
#![tactic(auto)]

ghost use Rattle.std.specs.Prelude.{◌≢◌, ◌<◌, ◌≤◌, None, IfOk, length};
ghost use Rattle.jobs.specs.Jobs.{stops_of};
ghost use Rattle.turns.specs.Standing.{behind_tables, needed, entry_at, Looked};
ghost use Rattle.leaders.specs.Leaders.{Rows};

use anyhow::{Context, anyhow};
use cells::cell::Cell;
use jobs::job::{Draft, Job};
use jobs::stops::{Link, Refused, Stop, Tie};
use measures::Measure;
use measures::climb::Climb;
use measures::longest::Longest;
use measures::shown::Shown;
use measures::time::Time;
use measures::values::{ClimbValue, LongestValue, TimeValue};
use quarters::quarter::Quarter;
use quarters::quarter::grid::QuarterRefusal;
use rides::table::{TooFewCells, fill};
use std::str::SplitTerminator;
use std::{fmt, io};
use tables::access::cell_at;
use turns::order::Order;

// How many cells are lent.
const CELLS: usize = 912;

// Why a case has no plans: a number of the quarter is outside its range, the stops make no tree, or there are too few
// cells or not 1 to 256 plans wanted.
#[derive(Debug, PartialEq, Eq, Clone, Copy)]
enum Refusal {
    NoQuarter,
    NoJob,
    NoRoom,
}

impl From<QuarterRefusal> for Refusal {
    fn from(_refusal: QuarterRefusal) -> Refusal {
        Refusal::NoQuarter
    }
}

impl From<Refused> for Refusal {
    fn from(_refused: Refused) -> Refusal {
        Refusal::NoJob
    }
}

impl From<TooFewCells> for Refusal {
    fn from(_too_few: TooFewCells) -> Refusal {
        Refusal::NoRoom
    }
}

impl fmt::Display for Refusal {
    fn fmt<W: fmt::Write>(&self, f: &mut fmt::Formatter<W>) -> fmt::Result {
        match self {
            Refusal::NoQuarter => write!(f, "no quarter"),
            Refusal::NoJob => write!(f, "no job"),
            Refusal::NoRoom => write!(f, "no room"),
        }
    }
}

// A score as it is printed: one number, or two with a colon between them.
#[derive(Clone, Copy)]
struct Score(Shown);

impl fmt::Display for Score {
    fn fmt<W: fmt::Write>(&self, f: &mut fmt::Formatter<W>) -> fmt::Result {
        match self.0 {
            Shown::One(n) => write!(f, "{n}"),
            Shown::Two(n, k) => write!(f, "{n}:{k}"),
        }
    }
}

// A plan as it is printed: its number, its score, and the place of each stop.
#[derive(Clone, Copy)]
struct Line<'a> {
    number: usize,
    score: Score,
    places: &'a [u8],
}

impl fmt::Display for Line<'_> {
    fn fmt<W: fmt::Write>(&self, f: &mut fmt::Formatter<W>) -> fmt::Result {
        write!(f, "{} score {} at", self.number, self.score)?;
        for place in self.places {
            write!(f, " {place}")?;
        }
        Ok(())
    }
}

// The next word of a line that has one more.
fn next_word<'a>(words: &mut SplitTerminator<'a, char>) -> anyhow::Result<&'a str> {
    words.next().context("a word is missing")
}

// The next six words as numbers.
fn read_front(words: &mut SplitTerminator<'_, char>) -> anyhow::Result<[u32; 6]> {
    let mut numbers = [0; 6];
    for number in &mut numbers {
        *number = next_word(words)?.parse::<u32>()?;
    }
    Ok(numbers)
}

// How a stop hangs on its parent; not at all where the link is neither direct nor a ride. The link is a word here, which
// would first have to be one byte for `Link::try_from`.
fn tie_of(parent: &str, link: &str) -> anyhow::Result<Option<Tie>> {
    let link = match link {
        "d" => Link::Direct,
        "r" => Link::Ride,
        _ => return Ok(None),
    };
    let parent = parent.parse::<u8>()?;
    Ok(Some(Tie { parent, link }))
}

// The stop that the next three words tell, none where no word is left; a second and third word that are missing are empty.
fn read_stop(words: &mut SplitTerminator<'_, char>) -> anyhow::Result<Option<Stop>> {
    let Some(kind) = words.next() else {
        return Ok(None);
    };
    let parent = words.next().unwrap_or("");
    let link = words.next().unwrap_or("");
    let kind = kind.parse::<u8>()?;
    let tie = tie_of(parent, link)?;
    Ok(Some(Stop { kind, tie }))
}

// The job that the words left tell, or why their stops make no tree. The thirteenth stop is refused, so no more are read.
fn read_job(words: &mut SplitTerminator<'_, char>) -> anyhow::Result<Result<Job, Refused>> {
    let mut draft = Draft::new();
    while let Some(stop) = read_stop(words)? {
        if let Err(refused) = draft.push(stop) {
            return Ok(Err(refused));
        }
    }
    Ok(Job::try_from(draft))
}

// A case as a line tells it: the quarter, the job, and how many plans are wanted.
#[derive(Clone, Copy)]
struct Case {
    quarter: Quarter,
    job: Job,
    wanted: usize,
}

impl Case {
    // The case of what was read, refused where the quarter or the job is; the quarter is looked at first.
    fn new(
        quarter: Result<Quarter, QuarterRefusal>,
        job: Result<Job, Refused>,
        wanted: usize,
    ) -> Result<Case, Refusal> {
        Ok(Case {
            quarter: quarter?,
            job: job?,
            wanted,
        })
    }
}

// The case that the words behind a measure tell, or why it has no plans. Words that tell no case are another error, which
// ends the program.
fn read_case(words: &mut SplitTerminator<'_, char>) -> anyhow::Result<Result<Case, Refusal>> {
    let [width, height, kinds, seconds, climb, wanted] = read_front(words)?;
    let job = read_job(words)?;
    let quarter = Quarter::new(width, height, kinds, seconds, climb);
    Ok(Case::new(quarter, job, usize::try_from(wanted)?))
}

// What a case asks for over n places, with `len` cells, or why that has no plans.
fn order_of(n: usize, job: &Job, k: usize, len: usize) -> Result<Order<'_>, Refusal>
    ensures { IfOk result (λ o. needed o.n (length (stops_of o.job.now)) o.k ≤ len) }
{
    if n > 64 || !(1..=256).contains(&k) {
        return Err(Refusal::NoRoom);
    }
    let order = Order { n, job, k };
    if order.room() <= len {
        Ok(order)
    } else {
        Err(Refusal::NoRoom)
    }
}

// Fills lent cells with the street of a case and answers what is asked for there, or says why the case has no plans.
fn prepare<'a, M: Measure>(
    cells: &mut [Cell<M, M::Value>],
    case: &'a Result<Case, Refusal>,
) -> Result<Order<'a>, Refusal>
    ensures { IfOk result (λ o. needed o.n (length (stops_of o.job.now)) o.k ≤ length cells.new) }
{
    let case = case.as_ref().map_err(|refusal| *refusal)?;
    let n = fill::<M, Quarter>(cells, &case.quarter)?;
    order_of(n, &case.job, case.wanted, cells.len())
}

// Prints how many plans were given, and whether more are left.
fn print_end(rt: &HostRuntime, given: usize, more: bool) -> io::Result<()> {
    let left = if more { "more" } else { "none" };
    println!(rt; "{given} given, {left} left")
}

// The plans of an order, which wait in lent cells behind the tables.
#[derive(Drop)]
struct PlansMut<'a, M, V> {
    cells: &'a mut [Cell<M, V>],
    order: Order<'a>,
    ghost room: { needed order.n (length (stops_of order.job.now)) order.k ≤ length cells.now },
}

impl<'a, M: Measure> PlansMut<'a, M, M::Value> {
    // The plans of an order in these cells.
    fn new(cells: &'a mut [Cell<M, M::Value>], order: Order<'a>) -> PlansMut<'a, M, M::Value>
        requires { needed order.n (length (stops_of order.job.now)) order.k ≤ length cells.old }
    {
        PlansMut { cells, order }
    }

    // Where the first plan waits that is not given, or none where no plan is left.
    fn look(&self) -> Option<usize>
        ensures { let o = self.now.order in Looked M.Measure.meaning (stops_of o.job.now) o.n o.k self.now.cells.now result }
    {
        self.order.look::<M>(self.cells)
    }

    // Prints the plan of entry w, `rows` plans being given before it.
    #[tactic(auto, using(leaders::proofs::Foremost::heads_le, jobs::proofs::Ties::some_stop))]
    fn print_plan(&self, rt: &HostRuntime, rows: usize, w: usize) -> io::Result<()>
        requires { let o = self.now.order in (rows < o.k) × (w < o.k) × ((entry_at self.now.cells.now o.n (length (stops_of o.job.now)) w).score ≢ None) }
    {
        let plan = cell_at(self.cells, self.order.base() + w).entry;
        let line = Line {
            number: rows + 1,
            score: Score(M::show(plan.score.unwrap())),
            places: plan.places.first(self.order.job.len()),
        };
        println!(rt; "{line}")
    }

    // Gives and prints the plans in turn, at most as many as `most`.
    fn give(&mut self, rt: &HostRuntime, most: usize) -> io::Result<()>
        requires { let o = self.old.order in let m = length (stops_of o.job.now) in (most ≤ o.k) × Rows self.old.cells.now (behind_tables o.n m) o.n m o.k 0 }
    {
        for rows in 0..most {
            let Some(w) = self.look() else {
                return print_end(rt, rows, false);
            };
            self.print_plan(rt, rows, w)?;
            self.order.give::<M>(self.cells, rows, w);
        }
        print_end(rt, most, self.look().is_some())
    }

    // Gives all the plans that are wanted, and then the first of them once more.
    fn give_twice(&mut self, rt: &HostRuntime) -> io::Result<()> {
        self.order.begin::<M>(self.cells);
        self.give(rt, self.order.k)?;
        self.order.begin_again::<M>(self.cells);
        self.give(rt, 1)
    }
}

// Runs a case over lent cells, or prints why it has no plans.
fn run_case<M: Measure>(
    rt: &HostRuntime,
    cells: &mut [Cell<M, M::Value>],
    case: &Result<Case, Refusal>,
) -> io::Result<()> {
    match prepare::<M>(cells, case) {
        Ok(order) => PlansMut::new(cells, order).give_twice(rt),
        Err(refusal) => println!(rt; "{refusal}"),
    }
}

// The cells that are lent to the plans, of each measure as many.
#[derive(Drop)]
struct Lent {
    times: [Cell<Time, TimeValue>; CELLS],
    longests: [Cell<Longest, LongestValue>; CELLS],
    climbs: [Cell<Climb, ClimbValue>; CELLS],
}

impl Lent {
    // Prints a line and runs its case, over the cells of its measure. A line whose first word is # is only printed.
    fn run_line(&mut self, rt: &HostRuntime, line: &str) -> anyhow::Result<()> {
        println!(rt; "{line}")?;
        let mut words = line.split_terminator(' ');
        let name = next_word(&mut words)?;
        if name == "#" {
            return Ok(());
        }
        let case = read_case(&mut words)?;
        // the name chooses a type parameter, which no table and no closure could take
        let done = match name {
            "t" => run_case::<Time>(rt, &mut self.times, &case),
            "l" => run_case::<Longest>(rt, &mut self.longests, &case),
            "c" => run_case::<Climb>(rt, &mut self.climbs, &case),
            _ => return Err(anyhow!("no such measure")),
        };
        Ok(done?)
    }
}

// Runs the lines of standard input.
fn run(rt: &HostRuntime) -> anyhow::Result<()> {
    let mut lent = Lent {
        times: [Cell::blank(); CELLS],
        longests: [Cell::blank(); CELLS],
        climbs: [Cell::blank(); CELLS],
    };
    for line in rt.lines(rt.alloc()) {
        let line = line?;
        lent.run_line(rt, line.as_str())?;
    }
    Ok(())
}

fn main(rt: HostRuntime) -> anyhow::Result<()> {
    run(&rt)
}

// The first plan and the whole enumeration over random small tables, compared with all placements laid out.
#![tactic(auto)]

ghost use Rattle.std.specs.Prelude.{◌≡◌, ◌<◌, length};
ghost use Rattle.jobs.specs.Jobs.{stops_of};
ghost use Rattle.leaders.specs.Leaders.{Rows};

use cells::cell::{Cell, Entry};
use cells::order::entry_at_or_before;
use cells::places::Places;
use jobs::job::Job;
use jobs::stops::Refused;
use leaders::advancing::advance;
use leaders::rows::find_head;
use measures::Measure;
use measures::optional::join_options;
use minima::board::BoardMut;
use minima::links::link_at;
use tables::access::{cell_at, stop_at};
use waiting::queue::Waiting;

// Three places and three stops: so 27 placements, and one plan more is wanted.
const PLACES: usize = 3;

const STOPS: usize = 3;

const PLACEMENTS: usize = 27;

const WANTED: usize = 28;

// The waiting entries begin behind 9 pairs and 9 stops at places; they are 84.
const BASE: usize = 18;

const CELLS: usize = 102;

// What is wrong with an enumeration.
#[derive(Debug, PartialEq, Eq, Clone, Copy)]
enum Wrong {
    // the job is not as the tests take it
    Setting,
    // a plan is given before another that comes before it, or it is none
    Turn,
    // too few plans are given, or too many
    Count,
}

// The tests take three stops that make a tree, which are not refused.
impl From<Refused> for Wrong {
    fn from(_refused: Refused) -> Wrong {
        Wrong::Setting
    }
}

// The next number of a small generator.
fn next(x: u64) -> u64 {
    let a = x ^ (x << 13);
    let b = a ^ (a >> 7);
    b ^ (b << 17)
}

// The value of a leg with a climb and a time below 3.
fn small_value<M: Measure>(x: u64) -> M::Value {
    // the check proves that both fit, so a try_from would have an error that never comes
    M::leg((x / 8 % 3) as u16, (x / 64 % 3) as u16)
}

// One of few values, or none: so there are many ties.
fn some_value<M: Measure>(x: u64) -> Option<M::Value> {
    (x % 5 != 0).then(|| small_value::<M>(x))
}

// Fills all cells with random values.
fn fill<M: Measure>(cells: &mut [Cell<M, M::Value>], seed: u64) {
    let mut x = seed;
    for cell in cells.iter_mut() {
        x = next(x);
        cell.leg = some_value::<M>(x);
        cell.ride = some_value::<M>(x / 512);
        cell.own = some_value::<M>(x / 262144);
    }
}

// The own value of stop s at place q, joined with the value of its link from place p of its parent.
fn hung_value<M: Measure>(
    cells: &[Cell<M, M::Value>; CELLS],
    job: &Job,
    s: usize,
    p: usize,
    q: usize,
) -> Option<M::Value>
    requires { (s < STOPS) × (p < PLACES) × (q < PLACES) }
{
    join_options::<M>(
        stop_at(cells, PLACES, STOPS, s, q).own,
        link_at(cells, PLACES, job, s, p, q),
    )
}

// The placement with this number, with its score joined from the tables. Cells and job stand apart here and
// below: a `Board` of them would say no more, and its readers ask that the job has three stops.
fn laid_out<M: Measure>(
    cells: &[Cell<M, M::Value>; CELLS],
    job: &Job,
    q: usize,
) -> Entry<M::Value> {
    let a = q / 9 % 3;
    let b = q / 3 % 3;
    let c = q % 3;
    let above = if job.parent(2) == 0 { a } else { b };
    let first = stop_at(cells, PLACES, STOPS, 0, a).own;
    let second = hung_value::<M>(cells, job, 1, a, b);
    let third = hung_value::<M>(cells, job, 2, above, c);
    let mut entry = Entry::without_plan(0);
    entry.score = join_options::<M>(first, join_options::<M>(second, third));
    // each place is below 3, which the check proves, so a try_from would have an error that never comes
    entry.places = Places::zero()
        .with(0, a as u8)
        .with(1, b as u8)
        .with(2, c as u8);
    entry
}

// How many placements are plans.
fn plans<M: Measure>(cells: &[Cell<M, M::Value>; CELLS], job: &Job) -> usize {
    (0..PLACEMENTS)
        .filter(|q| laid_out::<M>(cells, job, *q).score.is_some())
        .count()
}

// Whether two plans have the same place in the order.
fn level<M: Measure>(a: &Entry<M::Value>, b: &Entry<M::Value>) -> bool {
    entry_at_or_before::<M>(a, b) && entry_at_or_before::<M>(b, a)
}

// How many plans come before this one, none where it is none of them.
fn rank<M: Measure>(
    cells: &[Cell<M, M::Value>; CELLS],
    job: &Job,
    plan: &Entry<M::Value>,
) -> Option<usize> {
    plan.score?;
    if !(0..PLACEMENTS).any(|q| level::<M>(plan, &laid_out::<M>(cells, job, q))) {
        return None;
    }
    let before = (0..PLACEMENTS)
        .filter(|q| !entry_at_or_before::<M>(plan, &laid_out::<M>(cells, job, *q)))
        .count();
    Some(before)
}

// The plans of a job of three stops that wait, of which one more is wanted than there are placements.
fn waiting_plans(job: &Job) -> Waiting<'_>
    requires { length (stops_of job.now) ≡ STOPS }
    ensures { (result.n ≡ PLACES) × (result.job.now ≡ job.now) × (result.base ≡ BASE) × (result.k ≡ WANTED) }
{
    Waiting {
        n: PLACES,
        job,
        base: BASE,
        k: WANTED,
    }
}

// Gives the plans in turn: each has just as many plans before it as are given, and at the end all are given. The pick
// among all entries finds the plan that the pick among the heads finds.
fn enumerate<M: Measure>(cells: &mut [Cell<M, M::Value>; CELLS], job: &Job) -> Result<(), Wrong>
    requires { (length (stops_of job.now) ≡ STOPS) × Rows cells.old BASE PLACES (length (stops_of job.now)) WANTED 0 }
{
    let waiting = waiting_plans(job);
    let entries = waiting.entries();
    for given in 0..WANTED {
        let Some(w) = find_head::<M>(cells, &entries) else {
            let all = given == plans::<M>(cells, job);
            return if all { Ok(()) } else { Err(Wrong::Count) };
        };
        let plan = cell_at(cells, BASE + w).entry;
        if rank::<M>(cells, job, &plan) != Some(given) {
            return Err(Wrong::Turn);
        }
        let v = entries.find_next::<M>(cells).ok_or(Wrong::Turn)?;
        if cell_at(cells, BASE + v).entry.places != plan.places {
            return Err(Wrong::Turn);
        }
        advance::<M>(cells, &waiting, given, w);
    }
    Err(Wrong::Count)
}

// Fills the tables at random and enumerates the plans.
fn run<M: Measure>(
    cells: &mut [Cell<M, M::Value>; CELLS],
    job: &Job,
    seed: u64,
) -> Result<(), Wrong> {
    if job.len() != STOPS {
        return Err(Wrong::Setting);
    }
    fill::<M>(cells, seed);
    BoardMut::new(cells, PLACES, job).fill_minima();
    let waiting = waiting_plans(job);
    waiting.let_all_wait::<M>(cells);
    enumerate::<M>(cells, job)
}

// Whether random tables have six plans or more, so that a comparison over them says something. A table with fewer is not
// wrong, so this is a bool.
fn many_plans<M: Measure>(cells: &mut [Cell<M, M::Value>; CELLS], job: &Job, seed: u64) -> bool {
    fill::<M>(cells, seed);
    plans::<M>(cells, job) >= 6
}

#[cfg(test)]
mod tests {
    use super::*;
    use jobs::job::Draft;
    use jobs::stops::{Link, Stop, Tie};
    use measures::climb::Climb;
    use measures::longest::Longest;
    use measures::time::Time;
    use measures::values::{ClimbValue, LongestValue, TimeValue};

    // A stop of any kind that hangs on another.
    fn tied(parent: u8, link: Link) -> Stop {
        Stop {
            kind: 0,
            tie: Some(Tie { parent, link }),
        }
    }

    // Three stops: the second hangs on the root, the third on the root or on the second.
    fn tree(parent: u8, first: Link, second: Link) -> Result<Job, Wrong> {
        let mut draft = Draft::new();
        draft.push(Stop::default())?;
        draft.push(tied(0, first))?;
        draft.push(tied(parent, second))?;
        Ok(Job::try_from(draft)?)
    }

    // Forty tables for each of two trees.
    fn run_all<M: Measure>(cells: &mut [Cell<M, M::Value>; CELLS]) -> Result<(), Wrong> {
        let chain = tree(1, Link::Direct, Link::Ride)?;
        let fork = tree(0, Link::Ride, Link::Direct)?;
        for seed in 1..41 {
            run::<M>(cells, &chain, seed)?;
            run::<M>(cells, &fork, seed)?;
        }
        Ok(())
    }

    // In how many of forty tables there are many plans.
    fn plentiful<M: Measure>(cells: &mut [Cell<M, M::Value>; CELLS]) -> Result<usize, Wrong> {
        let chain = tree(1, Link::Direct, Link::Ride)?;
        let count = (1..41)
            .filter(|seed| many_plans::<M>(cells, &chain, *seed))
            .count();
        Ok(count)
    }

    #[test]
    fn tables_have_plans(rt: HostRuntime) {
        let mut cells = [Cell::<Time, TimeValue>::blank(); CELLS];
        assert!(rt; matches!(plentiful::<Time>(&mut cells), Ok(10..)));
    }

    // one test for each measure: a test takes no type parameter
    #[test]
    fn by_time(rt: HostRuntime) {
        let mut cells = [Cell::<Time, TimeValue>::blank(); CELLS];
        assert_eq!(rt; run_all::<Time>(&mut cells), Ok(()));
    }

    #[test]
    fn by_longest(rt: HostRuntime) {
        let mut cells = [Cell::<Longest, LongestValue>::blank(); CELLS];
        assert_eq!(rt; run_all::<Longest>(&mut cells), Ok(()));
    }

    #[test]
    fn by_climb(rt: HostRuntime) {
        let mut cells = [Cell::<Climb, ClimbValue>::blank(); CELLS];
        assert_eq!(rt; run_all::<Climb>(&mut cells), Ok(()));
    }
}

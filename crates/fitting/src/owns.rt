ghost use Rattle.std.specs.Prelude.{◌≡◌, ℕ, ◌+◌, ◌*◌, ◌<◌, ◌≤◌, ◌⊎◌, length, if◌then◌else◌, Some, None, Option, slice_index_or};
ghost use Rattle.std.specs.List.{slice_get};
ghost use Rattle.streets.specs.Meaning.{StreetMeaning, Sound};
ghost use Rattle.jobs.specs.Jobs.{stops_of};
ghost use Rattle.jobs.specs.Trees.{takes};
ghost use Rattle.tables.specs.Tables.{blank, kind_in, own_in, OwnsOnly};
ghost use Rattle.rides.specs.Cells.{Filled};
ghost use Rattle.tours.specs.Jobs.{job_meaning};
ghost use Rattle.tours.specs.Tasks.{task_of};
ghost use Rattle.minima.specs.Boards.{SameBoard};
ghost use Rattle.minima.specs.Tables.{Holds};
ghost use Rattle.fitting.specs.Owns.{own_by, OwnedBoard};

use jobs::stops::Stop;
use measures::Measure;
use minima::board::{Board, BoardMut};

// The own value of a stop at a place: zero where the place fits, none elsewhere.
fn own_value<M: Measure>(board: &Board<'_, M, M::Value>, stop: Stop, q: usize) -> Option<M::Value>
    requires { q < board.now.n }
    ensures { let b = board.now in result ≡ (if takes stop (kind_in b.cells.now b.n q) then Some M.Measure.meaning.nought else None) }
{
    stop.takes(board.kind(q)).then_some(M::ZERO)
}

// Writes the own values of stop s, place by place.
#[tactic(auto, using(minima::proofs::Filling::same_none, crate::proofs::Owning::board_none))]
fn fill_row<M: Measure>(board: &mut BoardMut<'_, M, M::Value>, s: usize, stop: Stop)
    requires { let stops = stops_of board.old.job.now in (s < length stops) × (slice_get stops s ≡ Some stop) }
    ensures { let n = board.old.n in OwnedBoard M.Measure.meaning (s * n) n board.old board.new }
{
    for q in 0..board.n {
        let value = own_value::<M>(&board.board(), stop, q);
        board.set_own(s, q, value);
    }
}

// Writes the own values of all stops, stop by stop.
#[tactic(auto, using(crate::proofs::Owning::board_none))]
fn fill_rows<M: Measure>(board: &mut BoardMut<'_, M, M::Value>)
    ensures { OwnedBoard M.Measure.meaning 0 (length (stops_of board.old.job.now) * board.old.n) board.old board.new }
{
    let job = board.job;
    for (s, stop) in job.stops().iter().enumerate() {
        fill_row::<M>(board, s, *stop);
    }
}

// Writes the own value of every stop at every place, by the kinds of the places that the cells hold. Where the cells hold
// the legs, rides and kinds of a street, they then hold the task that the job sets over it.
pub fn fill_own<M: Measure>(board: &mut BoardMut<'_, M, M::Value>)
    ensures same { SameBoard board.old board.new }
    ensures size { length board.new.cells.now ≡ length board.old.cells.now }
    ensures only { OwnsOnly board.old.cells.now board.new.cells.now }
    ensures others { let o = board.old in (i : ℕ) → (i < o.n * o.n) ⊎ (o.n * o.n + length (stops_of o.job.now) * o.n ≤ i) → (slice_index_or board.new.cells.now i blank).own ≡ (slice_index_or o.cells.now i blank).own }
    ensures owns { let o = board.old in (s q : ℕ) → s < length (stops_of o.job.now) → q < o.n → own_in board.new.cells.now o.n s q ≡ own_by M.Measure.meaning o.cells.now o.n (stops_of o.job.now) s q }
    ensures holds { let o = board.old in let new = board.new.cells.now in let stops = stops_of o.job.now in
        (street : StreetMeaning) → Sound street → street.places ≡ o.n → Filled M.Measure.meaning street o.cells.now → Holds new o.n stops (task_of M.Measure.meaning street (job_meaning stops)) × Filled M.Measure.meaning street new }
{
    fill_rows::<M>(board);
}

ghost use Rattle.std.specs.Prelude.{◌≡◌, ℕ, ◌+◌, ◌-◌, ◌*◌, ◌<◌, ◌≤◌, ◌&&◌, ◌||◌, length, ◌==◌, nat_lt, slice_index_or};
ghost use Rattle.sets.specs.Sets.{has_bit};
ghost use Rattle.jobs.specs.Jobs.{stops_of};
ghost use Rattle.cells.specs.Cells.{places_of};
ghost use Rattle.tables.specs.Tables.{blank, entry_in, Kept};
ghost use Rattle.minima.specs.Boards.{SameBoard};
ghost use Rattle.waiting.specs.Queues.{FirstOver, Part, Placed, Safe};
ghost use Rattle.sets.specs.Placements.{Same};

use bounds::prefixes::Prefix;
use cells::cell::Entry;
use cells::places::Places;
use measures::Measure;
use minima::board::{Board, BoardMut};
use search::firsts::first_plan;
use sets::PlaceSet;

// The part of a subspace with the plans that leave these places, which are its first plan's, at stop t: of the places that are
// excluded there, and the one that the first plan has there, the part has none. At the subspace's own depth the entry's
// excluded places are, and behind it no place is.
#[tactic(auto, using(crate::proofs::Keeping::one_bit, jobs::proofs::Ties::few_stops))]
pub fn part_at<M: Measure>(
    board: &Board<'_, M, M::Value>,
    places: &Places,
    t: usize,
    excluded: PlaceSet,
) -> Entry<M::Value>
    requires { let b = board.now in let m = length (stops_of b.job.now) in (t < m) × ((s : ℕ) → s < m → places_of places.now s < b.n) }
    ensures kept { (result.depth ≡ t) × Same t (places_of places.now) (places_of result.places) }
    ensures excluded { (q : ℕ) → has_bit result.excluded.bits q ≡ (has_bit excluded.bits q || q == places_of places.now t) }
    ensures safe { Safe board.now.n (length (stops_of board.now.job.now)) result }
    ensures first { let b = board.now in FirstOver M.Measure.meaning b.cells.now b.n (stops_of b.job.now) result }
{
    let without = excluded.with(places.at(t));
    let prefix = Prefix {
        board,
        places,
        i: t,
    };
    first_plan::<M>(&prefix, without)
}

// The parts of an entry's subspace at the stops behind its depth, one after the other from cell `at` on; no other cell changes.
pub fn split_rest<M: Measure>(
    board: &mut BoardMut<'_, M, M::Value>,
    at: usize,
    old: &Entry<M::Value>,
)
    requires { let b = board.old in let m = length (stops_of b.job.now) in Placed b.n m old.now × (b.n * b.n + m * b.n ≤ at) × (at + (m - (old.now.depth + 1)) ≤ length b.cells.now) }
    ensures same { SameBoard board.old board.new }
    ensures before { Kept at board.old.cells.now board.new.cells.now }
    ensures behind { let b = board.old in (i : ℕ) → at + (length (stops_of b.job.now) - (old.now.depth + 1)) ≤ i → slice_index_or board.new.cells.now i blank ≡ slice_index_or b.cells.now i blank }
    ensures parts { let b = board.old in let m = length (stops_of b.job.now) in let d = old.now.depth + 1 in (u : ℕ) → u < m - d → Part old.now.places (d + u) (entry_in board.new.cells.now (at + u)) × Safe b.n m (entry_in board.new.cells.now (at + u)) }
    ensures firsts { let b = board.old in (u : ℕ) → u < length (stops_of b.job.now) - (old.now.depth + 1) → FirstOver M.Measure.meaning b.cells.now b.n (stops_of b.job.now) (entry_in board.new.cells.now (at + u)) }
{
    for (u, t) in (old.depth + 1..board.job.len()).enumerate() {
        let part = part_at::<M>(&board.board(), &old.places, t, PlaceSet::empty());
        board.set_entry(at + u, part);
    }
}

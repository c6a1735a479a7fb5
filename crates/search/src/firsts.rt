ghost use Rattle.std.specs.Prelude.{ℕ, ◌+◌, ◌<◌, length, Option};
ghost use Rattle.sets.specs.Placements.{Same};
ghost use Rattle.jobs.specs.Jobs.{stops_of};
ghost use Rattle.cells.specs.Cells.{places_of};
ghost use Rattle.search.specs.Places.{FoundTo, FirstIn};

use bounds::prefixes::Prefix;
use cells::cell::Entry;
use cells::places::Places;
use measures::Measure;
use minima::board::Board;
use sets::PlaceSet;

// These places, with others for the stops after the depth: at each stop the first whose bound is least.
fn with_rest<M: Measure>(board: &Board<'_, M, M::Value>, from: Places, depth: usize) -> Places
    requires { (depth < length (stops_of board.now.job.now)) × ((t : ℕ) → t < depth + 1 → places_of from t < board.now.n) }
    ensures same { Same (depth + 1) (places_of from) (places_of result) }
    ensures small { (t : ℕ) → t < length (stops_of board.now.job.now) → places_of result t < board.now.n }
    ensures found { (excluded : ℕ) (v : Option M.Value) → FoundTo M.Measure.meaning board.now depth excluded v (depth + 1) from →
        FoundTo M.Measure.meaning board.now depth excluded v (length (stops_of board.now.job.now)) result }
{
    let mut places = from;
    for i in depth + 1..board.job.len() {
        // `&*board`, since with `board` alone, which was tried, no proof of the loop is made
        let prefix = Prefix {
            board: &*board,
            places: &places,
            i,
        };
        let next = prefix.pick(PlaceSet::empty());
        places = places.with(i, next.place);
    }
    places
}

// The same as `first_plan`, where there are places.
#[tactic(auto, using(crate::proofs::Filling::with_small))]
fn first_at_places<M: Measure>(
    prefix: &Prefix<'_, M, M::Value>,
    excluded: PlaceSet,
) -> Entry<M::Value>
    requires { 0 < prefix.now.board.now.n }
    ensures { FirstIn M.Measure.meaning prefix.now excluded result }
{
    let depth = prefix.i;
    let top = prefix.pick(excluded);
    let places = prefix.places.with(depth, top.place);
    Entry {
        score: top.value,
        places: with_rest::<M>(prefix.board, places, depth),
        depth,
        excluded,
    }
}

// The first plan of the subspace of the places of a prefix and the excluded ones behind it, as an entry. Stop by stop it
// takes the first place whose bound is least.
pub fn first_plan<M: Measure>(
    prefix: &Prefix<'_, M, M::Value>,
    excluded: PlaceSet,
) -> Entry<M::Value>
    ensures { FirstIn M.Measure.meaning prefix.now excluded result }
{
    if prefix.board.n == 0 {
        return Entry {
            score: None,
            places: *prefix.places,
            depth: prefix.i,
            excluded,
        };
    }
    first_at_places::<M>(prefix, excluded)
}

ghost use Rattle.std.specs.Prelude.{◌≡◌};
ghost use Rattle.cells.specs.Cells.{planless, empty_cell};

use crate::places::Places;
use sets::PlaceSet;
use std::marker::PhantomData;

// A waiting subspace of plans: those that have the first `depth` of these places and at the next stop none of the
// excluded ones. The places are its first plan, and the score is that plan's; no score means that it has no plan. Such an
// entry names its subspace too: each placement that is not given, also one without a score, lies in some entry's.
#[derive(Clone, Copy)]
pub struct Entry<V> {
    pub score: Option<V>,
    pub places: Places,
    pub depth: usize,
    pub excluded: PlaceSet,
}

impl<V> Entry<V> {
    // No plan: place 0 for each stop, and no place excluded.
    pub fn without_plan(depth: usize) -> Entry<V>
        ensures { result ≡ planless depth }
    {
        Entry {
            score: None,
            places: Places::zero(),
            depth,
            excluded: PlaceSet::empty(),
        }
    }
}

// A cell: a record with values of the measure M, which are of the type V, and the planner's notes. V is a parameter since a type
// that holds an associated type, as `M::Value`, cannot be `Copy`. It is memory that a caller lends; what it holds at the start does
// not matter. A cell serves as one of these, by where it stands: a pair of places, a place, a stop at a place, or a waiting
// subspace.
#[derive_where(Clone, Copy; V)]
#[derive(Drop)]
pub struct Cell<M, V> {
    // of a pair of places: the value of the leg between them, and that of the ride
    pub leg: Option<V>,
    pub ride: Option<V>,
    // of a place: its kind
    pub kind: u8,
    // of a stop at a place: its own value there, none where the place does not fit; and the least value of its
    // subtree there
    pub own: Option<V>,
    pub best: Option<V>,
    // of a stop and a place of its parent: the least value of its link and its subtree
    pub hang: Option<V>,
    // a waiting subspace
    pub entry: Entry<V>,
    pub measure: PhantomData<M>,
}

impl<M, V> Cell<M, V> {
    // A cell in which nothing stands.
    pub fn blank() -> Cell<M, V>
        ensures { result ≡ empty_cell }
    {
        Cell {
            leg: None,
            ride: None,
            kind: 0,
            own: None,
            best: None,
            hang: None,
            entry: Entry::without_plan(0),
            measure: PhantomData,
        }
    }
}

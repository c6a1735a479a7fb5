#![tactic(auto)]

ghost use Rattle.tours.specs.Laws.{TourLaws};

use measures::{Measure, laws};

// A job over a street sets a task: a tree of stops over tables of values. This function does nothing: it is there for
// the laws in its contract, that the task's plans, scores and order are those of the street.
#[tactic(auto, using(crate::proofs::Turns::tour_laws_lem))]
pub fn tour_laws<M: Measure>()
    ensures { TourLaws M.Measure.meaning }
{
    laws::<M>();
}

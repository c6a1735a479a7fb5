#![tactic(auto)]

ghost use Rattle.plans.specs.Laws.{RideLaws, ScoreLaws, OrderLaws};

use measures::{Measure, laws};

// What holds of walks, rides, plans and their order under every measure. These functions do nothing: each is
// there for the laws in its contract, which rest on those of the measure.

// A ride exists exactly where a walk does, and it is one value.
#[tactic(auto, using(crate::proofs::Rides::ride_laws_lem))]
pub fn ride_laws<M: Measure>()
    ensures { RideLaws M.Measure.meaning }
{
    laws::<M>();
}

// A plan has one score.
#[tactic(auto, using(crate::proofs::Scores::score_laws_lem))]
pub fn score_laws<M: Measure>()
    ensures { ScoreLaws M.Measure.meaning }
{
    laws::<M>();
}

// The order of plans is total and strict.
#[tactic(auto, using(crate::proofs::Orders::order_laws_lem))]
pub fn order_laws<M: Measure>()
    ensures { OrderLaws M.Measure.meaning }
{
    laws::<M>();
}

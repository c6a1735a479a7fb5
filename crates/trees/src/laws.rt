ghost use Rattle.measures.specs.Scales.{Sound, optional};
ghost use Rattle.trees.specs.Statements.{BoundIsLeast, SubtreesAddUp, MinimaAreLeast, FirstComesFirst, SplitLosesNothing, LeastIsFirstLeft, NoneWaiting, SplitKeepsPartition, InTurnInOrder};

use measures::{Measure, laws};

// What holds of every tree of stops, for every measure. These functions do nothing: each is there for the one
// statement in its contract.

// The values of a measure with none added as the worst keep the laws that the statements rest on.
#[tactic(auto, using(crate::proofs::Lift::lifted))]
fn sound<M: Measure>()
    ensures { Sound (optional M.Measure.meaning) }
{
    laws::<M>();
}

// The bound of a prefix is the least score of a plan that begins with it.
#[tactic(auto, using(crate::proofs::Together::bounds))]
pub fn bound_is_least<M: Measure>()
    ensures { BoundIsLeast (optional M.Measure.meaning) }
{
    sound::<M>();
}

// The values of subtrees are made of their stops, links and subtrees, up to the score.
#[tactic(auto, using(crate::proofs::Subtrees::in_by_parent, crate::proofs::Subtrees::link_and_subtree, crate::proofs::Subtrees::whole_tree))]
pub fn subtrees_add_up<M: Measure>()
    ensures { SubtreesAddUp (optional M.Measure.meaning) }
{
    sound::<M>();
}

// Each minimum is the least value of its subtree over all places.
#[tactic(auto, using(crate::proofs::Together::minima))]
pub fn minima_are_least<M: Measure>()
    ensures { MinimaAreLeast (optional M.Measure.meaning) }
{
    sound::<M>();
}

// The first plan of a subspace comes before every other plan of it.
#[tactic(auto, using(crate::proofs::Together::firsts))]
pub fn first_comes_first<M: Measure>()
    ensures { FirstComesFirst (optional M.Measure.meaning) }
{
    sound::<M>();
}

// The parts of a split are disjoint, and no plan is lost.
#[tactic(auto, using(crate::proofs::Together::splits))]
pub fn split_loses_nothing<M: Measure>()
    ensures { SplitLosesNothing (optional M.Measure.meaning) }
{
    sound::<M>();
}

// The least waiting subspace has the first plan not given.
#[tactic(auto, using(crate::proofs::Rounds::chosen_foremost))]
pub fn least_is_first_left<M: Measure>()
    ensures { LeastIsFirstLeft (optional M.Measure.meaning) }
{
    sound::<M>();
}

// Where no waiting subspace has a plan, none is left.
#[tactic(auto, using(crate::proofs::Rounds::all_none))]
pub fn none_waiting<M: Measure>()
    ensures { NoneWaiting (optional M.Measure.meaning) }
{
    sound::<M>();
}

// The split of the chosen subspace keeps the partition. Its answer stands in proofs/: `using` takes a lemma whose conclusion
// shows all its numbers, and this one does not show where the parts stand.
pub fn split_keeps_partition<M: Measure>()
    ensures { SplitKeepsPartition (optional M.Measure.meaning) }
{
    sound::<M>();
}

// Plans that are given in turn are in order.
#[tactic(auto, using(crate::proofs::Rounds::in_order, crate::proofs::Rounds::all_before))]
pub fn in_turn_in_order<M: Measure>()
    ensures { InTurnInOrder (optional M.Measure.meaning) }
{
    sound::<M>();
}

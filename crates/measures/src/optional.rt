ghost use Rattle.std.specs.Prelude.{◌≡◌, ℕ, ◌<◌};
ghost use Rattle.measures.specs.Optional.{both};
ghost use Rattle.measures.specs.Scales.{optional, IsTotal};

use crate::Measure;

// Two values joined, none where one of them is missing.
pub fn join_options<M: Measure>(a: Option<M::Value>, b: Option<M::Value>) -> Option<M::Value>
    ensures { result ≡ both M.Measure.meaning.joined a b }
{
    Some(M::join(a?, b?))
}

// The values at the numbers below count, joined; none where one of them is missing.
#[tactic(auto, using(crate::proofs::Totals::given_none))]
pub fn total<M: Measure, F: Fn(usize) -> Option<M::Value>>(
    count: usize,
    value: F,
) -> Option<M::Value>
    requires { (s : ℕ) → s < count → F.pre value s }
    ensures { IsTotal (optional M.Measure.meaning) count (F.post value) result }
{
    let mut sum = Some(M::ZERO);
    for s in 0..count {
        sum = join_options::<M>(sum, value(s));
    }
    sum
}

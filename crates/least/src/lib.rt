#![tactic(auto)]

ghost use Rattle.std.specs.Prelude.{◌≡◌, Bool};
ghost use Rattle.least.specs.Order.{Ordered, FirstLeast};

use measures::Measure;

// An order in which any two are comparable. Equals in the order may differ in what it does not look at.
pub trait TotalOrder {
    // whether the first is at or before the second
    ghost precedes: { Self → Self → Bool };

    fn at_or_before(&self, other: &Self) -> bool
        ensures { result ≡ precedes self.now other.now };

    ghost ordered: { Ordered precedes };
}

// A value of the measure M as an element of a list, in the measure's order.
#[derive(Drop)]
pub struct Element<M: Measure>(pub M::Value);

impl<M: Measure> TotalOrder for Element<M> {
    ghost precedes = { λ a b. M.Measure.meaning.before a.0 b.0 };

    ghost ordered = { let laws = M.Measure.lawful.laws in
        record { total = λ a b. laws.total a.0 b.0; trans = λ a b c h k. laws.trans a.0 b.0 c.0 h k } };

    fn at_or_before(&self, other: &Element<M>) -> bool {
        M::at_or_before(self.0, other.0)
    }
}

// The index of the least entry; of equals the first; none for an empty list.
// A loop from the second entry on: over `enumerate` the first would be compared with itself, with `skip(1)` behind it no
// invariant was found, and with `reduce` what it returns was not proved.
pub fn least_of<T: TotalOrder>(xs: &[T]) -> Option<usize>
    ensures { FirstLeast T.TotalOrder.precedes xs.now result }
{
    if xs.is_empty() {
        return None;
    }
    let mut best = 0;
    for i in 1..xs.len() {
        if !xs[best].at_or_before(&xs[i]) {
            best = i;
        }
    }
    Some(best)
}

// The index of the least of a measure's values: a call for a caller's values is a rule of the project.
pub fn least_value<'a, M: Measure>(xs: &'a [Element<M>]) -> Option<usize>
where
    M::Value: 'a,
    ensures { FirstLeast (λ a b. M.Measure.meaning.before a.0 b.0) xs.now result }
{
    least_of(xs)
}

ghost use Rattle.std.specs.Prelude.{◌≡◌, if◌then◌else◌};
ghost use Rattle.measures.specs.Scales.{at_most};

use cells::order::at_most;
use measures::Measure;

// A place for a stop, and the least score of a plan that has it, or none.
// No `Option<Choice<V>>`, which was tried: `first_plan` promises places below n where there is no plan, too.
#[derive(Clone, Copy)]
pub struct Choice<V> {
    pub place: u8,
    pub value: Option<V>,
}

impl<V: Copy> Choice<V> {
    // The choice with the lesser value, of equals the first. It stands apart from `cells::order::lesser`: one function for both
    // would take what is compared by a trait or a closure, which is longer than the test that they share.
    pub(crate) fn or_lesser<M: Measure<Value = V>>(self, other: Choice<V>) -> Choice<V>
        ensures { result ≡ (if at_most M.Measure.meaning.before self.value other.value then self else other) }
    {
        if at_most::<M>(self.value, other.value) {
            self
        } else {
            other
        }
    }
}

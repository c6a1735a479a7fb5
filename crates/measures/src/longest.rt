ghost use Rattle.std.specs.Prelude.{◌≡◌, refl};
ghost use Rattle.measures.specs.Longest.{longest_of, longest_meaning};
ghost use Rattle.std.proofs.Common.{rules};
ghost use Rattle.measures.specs.Numbers.{longest_laws};

use crate::Measure;
use crate::shown::Shown;
use crate::values::LongestValue;

// The longest of all legs, by seconds.
pub struct Longest;

#[tactic(auto, using(crate::specs::Same::same_longest), unfolding(crate::specs::Longest::longest_of))]
impl Measure for Longest {
    type Value = LongestValue;

    ghost meaning = { longest_meaning };

    ghost ZERO = { longest_of 0 };

    const ZERO: LongestValue = LongestValue { seconds: 0 };

    ghost lawful = { record { laws = longest_laws; showable = λ a. a.fits; named = Prim.search rules } };

    ghost zero_is = { refl };

    fn leg(_climb: u16, seconds: u16) -> LongestValue {
        LongestValue {
            seconds: u32::from(seconds),
        }
    }

    fn join(a: LongestValue, b: LongestValue) -> LongestValue {
        a.max(b)
    }

    fn at_or_before(a: LongestValue, b: LongestValue) -> bool {
        a <= b
    }

    fn show(value: LongestValue) -> Shown {
        Shown::One(value.seconds)
    }

    fn name() -> &'static str {
        "longest"
    }
}

ghost use Rattle.std.specs.Prelude.{◌≡◌, refl};
ghost use Rattle.measures.specs.Time.{time_of, time_meaning};
ghost use Rattle.std.proofs.Common.{rules};
ghost use Rattle.measures.specs.Numbers.{time_laws};

use crate::Measure;
use crate::shown::Shown;
use crate::values::TimeValue;

// The seconds of all legs, added up.
pub struct Time;

#[tactic(auto, using(crate::specs::Same::same_time), unfolding(crate::specs::Time::time_of))]
impl Measure for Time {
    type Value = TimeValue;

    ghost meaning = { time_meaning };

    ghost ZERO = { time_of 0 };

    const ZERO: TimeValue = TimeValue { seconds: 0 };

    ghost lawful = { record { laws = time_laws; showable = λ a. a.fits; named = Prim.search rules } };

    ghost zero_is = { refl };

    fn leg(_climb: u16, seconds: u16) -> TimeValue {
        TimeValue {
            seconds: u32::from(seconds),
        }
    }

    fn join(a: TimeValue, b: TimeValue) -> TimeValue {
        TimeValue {
            seconds: a.seconds.saturating_add(b.seconds),
        }
    }

    fn at_or_before(a: TimeValue, b: TimeValue) -> bool {
        a <= b
    }

    fn show(value: TimeValue) -> Shown {
        Shown::One(value.seconds)
    }

    fn name() -> &'static str {
        "time"
    }
}

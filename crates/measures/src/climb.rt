ghost use Rattle.std.specs.Prelude.{◌≡◌, refl};
ghost use Rattle.measures.specs.Climb.{climb_of, climb_meaning};
ghost use Rattle.std.proofs.Common.{rules};
ghost use Rattle.measures.specs.Climbs.{climb_laws};

use crate::Measure;
use crate::shown::Shown;
use crate::values::ClimbValue;

// The metres climbed, and where those are equal the seconds.
pub struct Climb;

#[tactic(auto, using(crate::specs::Same::same_climb), unfolding(crate::specs::Climb::climb_of))]
impl Measure for Climb {
    type Value = ClimbValue;

    ghost meaning = { climb_meaning };

    ghost ZERO = { climb_of 0 0 };

    const ZERO: ClimbValue = ClimbValue {
        climb: 0,
        seconds: 0,
    };

    ghost lawful = { record { laws = climb_laws; showable = λ a. a.fits; named = Prim.search rules } };

    ghost zero_is = { refl };

    fn leg(climb: u16, seconds: u16) -> ClimbValue {
        ClimbValue {
            climb: u32::from(climb),
            seconds: u32::from(seconds),
        }
    }

    fn join(a: ClimbValue, b: ClimbValue) -> ClimbValue {
        if a == Self::ZERO {
            return b;
        }
        if b == Self::ZERO {
            return a;
        }
        let climb = a.climb.saturating_add(b.climb);
        if climb == u32::MAX {
            return ClimbValue {
                climb: u32::MAX,
                seconds: u32::MAX,
            };
        }
        ClimbValue {
            climb,
            seconds: a.seconds.saturating_add(b.seconds),
        }
    }

    fn at_or_before(a: ClimbValue, b: ClimbValue) -> bool {
        a <= b
    }

    fn show(value: ClimbValue) -> Shown {
        Shown::Two(value.climb, value.seconds)
    }

    fn name() -> &'static str {
        "climb"
    }
}

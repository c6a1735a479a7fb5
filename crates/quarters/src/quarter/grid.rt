ghost use Rattle.std.specs.Prelude.{◌≡◌, true, false, MatchResult};
ghost use Rattle.quarters.specs.Grid.{column, row, in_range, grid_meaning};
ghost use Rattle.quarters.specs.Quarters.{grid, grid_of, number_of};
ghost use Rattle.quarters.specs.Sounds.{grid_sound};
ghost use Rattle.quarters.specs.declared.quarter.grid.QuarterRefusal.TheVariants.{OutOfRange};

use crate::quarter::Quarter;
use std::num::TryFromIntError;
use streets::legs::Leg;
use streets::street::Street;

// Why no quarter was made: a number is outside its range.
#[derive(Clone, Copy, Debug, PartialEq, Eq)]
pub enum QuarterRefusal {
    OutOfRange = 51,
}

// A number that does not fit its field is outside its range.
impl From<TryFromIntError> for QuarterRefusal {
    ghost from_gives = { λ e r. r ≡ OutOfRange };

    fn from(_error: TryFromIntError) -> QuarterRefusal {
        QuarterRefusal::OutOfRange
    }
}

impl QuarterRefusal {
    // The number that stands for the refusal. A method of its own: its clause names the numbers of this enum, and a trait
    // for the four such enums would be longer than their bodies.
    pub fn number(self) -> u8
        ensures { result ≡ number_of self }
    {
        self as u8
    }
}

impl Quarter {
    // A quarter of `width` times `height` crossings, at most 64, whose kinds go from 1 to `kinds`; each leg takes
    // `seconds`, and one to the next row climbs `climb` metres. Five numbers: a caller has them by name already, and a struct
    // of them would be made only for this call.
    pub fn new(
        width: u32,
        height: u32,
        kinds: u32,
        seconds: u32,
        climb: u32,
    ) -> Result<Quarter, QuarterRefusal>
        ensures { MatchResult result (λ q. (grid_of q ≡ grid width height kinds seconds climb) × (in_range (grid width height kinds seconds climb) ≡ true)) (λ _. in_range (grid width height kinds seconds climb) ≡ false) }
    {
        if !(1..=64).contains(&width)
            || !(1..=64).contains(&height)
            || width * height > 64
            || kinds == 0
        {
            return Err(QuarterRefusal::OutOfRange);
        }
        Ok(Quarter {
            width: u8::try_from(width)?,
            height: u8::try_from(height)?,
            kinds: u8::try_from(kinds)?,
            seconds: u16::try_from(seconds)?,
            climb: u16::try_from(climb)?,
        })
    }

    // The column and the row of a place.
    fn crossing(&self, place: usize) -> (usize, usize)
        ensures { result ≡ (column (grid_of self.now) place, row (grid_of self.now) place) }
    {
        let width = usize::from(self.width);
        (place % width, place / width)
    }
}

impl Street for Quarter {
    ghost meaning = { λ q. grid_meaning (grid_of q) };

    ghost sound = { λ q. grid_sound (grid_of q) q.few };

    fn places(&self) -> usize {
        usize::from(self.width) * usize::from(self.height)
    }

    fn kind(&self, place: usize) -> u8 {
        if place >= self.places() {
            return 0;
        }
        let (column, row) = self.crossing(place);
        // the check proves that it fits, so a try_from would have an error that never comes
        (1 + (column + row) % usize::from(self.kinds)) as u8
    }

    fn leg(&self, from: usize, to: usize) -> Option<Leg> {
        if from >= self.places() || to >= self.places() {
            return None;
        }
        let (from_column, from_row) = self.crossing(from);
        let (to_column, to_row) = self.crossing(to);
        if from_column == to_column && from_row + 1 == to_row {
            Some(Leg {
                climb: self.climb,
                seconds: self.seconds,
            })
        } else if (from_column == to_column && to_row + 1 == from_row)
            || (from_row == to_row && from_column.abs_diff(to_column) == 1)
        {
            Some(Leg {
                climb: 0,
                seconds: self.seconds,
            })
        } else {
            None
        }
    }
}

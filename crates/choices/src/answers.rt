ghost use Rattle.std.specs.Prelude.{◌≡◌};
ghost use Rattle.choices.specs.Fits.{number_of};

use sets::PlaceSet;

// The places that fit a stop. That an answer has the set, its size and its least place is a rule of the project.
#[derive(Clone, Copy, Debug, PartialEq, Eq)]
pub struct Choices {
    pub set: PlaceSet,
    // how many places are in the set
    pub size: u32,
    // the least place in the set, 64 where it is empty
    pub least: u32,
}

// Why there is no answer.
#[derive(Clone, Copy, Debug, PartialEq, Eq)]
pub enum Refusal {
    // the job has no such stop
    NoSuchStop = 52,
}

impl Refusal {
    // The number of the refusal. A method of its own: its clause names the numbers of this enum, and a trait for the four
    // such enums would be longer than their bodies.
    pub fn number(self) -> u8
        ensures { result ≡ number_of self }
    {
        self as u8
    }
}

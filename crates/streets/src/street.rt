ghost use Rattle.std.specs.Prelude.{◌≡◌};
ghost use Rattle.streets.specs.Meaning.{StreetMeaning, Sound};

use crate::legs::Leg;

// A street: places 0 to n - 1, at most 64, each of one kind, and legs between them. Whoever brings a street says
// what it means and shows that the meaning is one that a street may have; each answer is then the one that
// the meaning fixes. A question takes `&self` and changes nothing.
pub trait Street {
    ghost meaning: { Self → StreetMeaning };

    // How many places there are.
    fn places(&self) -> usize
        ensures { result ≡ (meaning self.now).places };

    // The kind of a place, 0 outside the places: that it is 0, and not none, is a rule of the project.
    fn kind(&self, place: usize) -> u8
        ensures { result ≡ (meaning self.now).kind place };

    // The leg from one place to another, if there is one.
    fn leg(&self, from: usize, to: usize) -> Option<Leg>
        ensures { result ≡ (meaning self.now).leg from to };

    ghost sound: { (s : Self) → Sound (meaning s) };
}

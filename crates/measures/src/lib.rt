#![tactic(auto)]

ghost use Rattle.std.specs.Prelude.{◌≡◌};
ghost use Rattle.measures.specs.Laws.{Laws, Lawful};
ghost use Rattle.measures.specs.Meaning.{MeasureMeaning};

pub mod climb;
pub mod longest;
pub mod optional;
pub mod shown;
pub mod time;
pub mod values;

use shown::Shown;

// A measure values legs and whatever is made of legs. Whoever brings a measure says what it
// means, and proves the laws of that meaning; each answer is then the one that the meaning fixes,
// for every value. The functions take no `self`: a measure is a type, and nothing has to hold one.
pub trait Measure {
    // what a measure says of a leg, of a walk or of a plan
    type Value: Copy;

    ghost meaning: { MeasureMeaning Self.Value };

    ghost ZERO: { Self.Value };

    // the value of nothing: it is before every other, and joined to any it changes nothing
    const ZERO: Self::Value;

    fn leg(climb: u16, seconds: u16) -> Self::Value
        ensures { result ≡ meaning.legged climb seconds };

    fn join(a: Self::Value, b: Self::Value) -> Self::Value
        ensures { result ≡ meaning.joined a b };

    fn at_or_before(a: Self::Value, b: Self::Value) -> bool
        ensures { result ≡ meaning.before a b };

    fn show(value: Self::Value) -> Shown
        ensures { result ≡ meaning.shown value };

    fn name() -> &'static str
        ensures { result.now ≡ meaning.called };

    ghost lawful: { Lawful meaning };

    ghost zero_is: { ZERO ≡ meaning.nought };
}

// The seven laws of a measure, as the fact of a call: a function whose contract rests on them calls it.
pub fn laws<M: Measure>()
    ensures { let m = M.Measure.meaning in Laws m.nought m.joined m.before }
{}

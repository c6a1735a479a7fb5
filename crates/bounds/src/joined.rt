ghost use Rattle.std.specs.Prelude.{◌≡◌, ◌+◌, ◌<◌, ◌⊎◌};
ghost use Rattle.jobs.specs.Jobs.{stops_of};
ghost use Rattle.cells.specs.Cells.{places_of};
ghost use Rattle.bounds.specs.Prefixes.{rest_in, IsBound, Picks};

use crate::choice::Choice;
use crate::prefixes::Prefix;
use measures::Measure;
use measures::optional::join_options;
use sets::PlaceSet;

// A prefix with what all stops but stop i add, joined once for all places of stop i.
#[derive(Drop)]
pub(crate) struct Joined<'p, 'a, M: Measure> {
    prefix: &'p Prefix<'a, M, M::Value>,
    rest: Option<M::Value>,
    ghost joined: { let p = prefix.now in rest ≡ rest_in M.Measure.meaning p.board.now p.i (places_of p.places.now) },
}

impl<'p, 'a, M: Measure> Joined<'p, 'a, M> {
    // The prefix, with what its other stops add. It and `bound` are inlined: without that a first plan over one place takes up
    // to a fifth more instructions, and with `bound` alone inlined up to half as many again.
    #[inline(always)]
    pub(crate) fn of(prefix: &'p Prefix<'a, M, M::Value>) -> Joined<'p, 'a, M>
        ensures { result.prefix.now ≡ prefix.now }
    {
        let rest = prefix.rest();
        Joined { prefix, rest }
    }

    // The bound of the prefix with place q for stop i.
    #[inline(always)]
    #[tactic(auto, using(crate::proofs::Bounding::bound_joined))]
    pub(crate) fn bound(&self, q: usize) -> Option<M::Value>
        requires { q < self.now.prefix.now.board.now.n }
        ensures { IsBound M.Measure.meaning self.now.prefix.now q result }
    {
        let here = self.prefix.here(q);
        join_options::<M>(self.rest, here)
    }

    // Place q as a choice for stop i, with its bound.
    fn candidate(&self, q: usize) -> Choice<M::Value>
        requires { q < self.now.prefix.now.board.now.n }
        ensures place { result.place ≡ q }
        ensures value { IsBound M.Measure.meaning self.now.prefix.now q result.value }
    {
        let value = self.bound(q);
        // A place is below n, at most 64: the cast loses nothing, and `u8::try_from` would bring an error that cannot come.
        Choice {
            place: q as u8,
            value,
        }
    }

    // One place more in the search for the first whose bound is least.
    #[tactic(auto, using(crate::proofs::Picking::picks_excluded, crate::proofs::Picking::picks_lesser))]
    pub(crate) fn try_place(
        &self,
        excluded: PlaceSet,
        best: Choice<M::Value>,
        q: usize,
    ) -> Choice<M::Value>
        requires { q < self.now.prefix.now.board.now.n }
        ensures picks { Picks M.Measure.meaning self.now.prefix.now excluded.bits q best → Picks M.Measure.meaning self.now.prefix.now excluded.bits (q + 1) result }
        ensures within { (result.place ≡ best.place) ⊎ (result.place ≡ q) }
    {
        if excluded.has(q) {
            return best;
        }
        let next = self.candidate(q);
        best.or_lesser::<M>(next)
    }
}

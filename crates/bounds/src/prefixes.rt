ghost use Rattle.std.specs.Prelude.{◌≡◌, ℕ, ◌+◌, ◌<◌, true, length, if◌then◌else◌, Some, nat_eq};
ghost use Rattle.sets.specs.Sets.{has_bit};
ghost use Rattle.jobs.specs.Jobs.{stops_of};
ghost use Rattle.cells.specs.Cells.{places_of};

use crate::choice::Choice;
use crate::joined::Joined;
use cells::places::Places;
use measures::Measure;
use measures::optional::{join_options, total};
use minima::board::Board;
use sets::PlaceSet;

// The plans in which the stops below stop i have these places.
#[derive(Drop)]
pub struct Prefix<'a, M, V> {
    pub board: &'a Board<'a, M, V>,
    pub places: &'a Places,
    pub i: usize,
    pub ghost stop: { i < length (stops_of board.now.job.now) },
    pub ghost placed: { (t : ℕ) → t < i → places_of places.now t < board.now.n },
}

impl<'a, M: Measure> Prefix<'a, M, M::Value> {
    ghost use Rattle.jobs.specs.Trees.{parent_in};
    ghost use Rattle.minima.specs.Tables.{link_in};
    ghost use Rattle.measures.specs.Optional.{both};
    ghost use Rattle.measures.specs.Scales.{optional, total};
    ghost use Rattle.bounds.specs.Prefixes.{cost_in, term_in, rest_in, here_in, IsBound, Picks};

    // The place of a stop below stop i.
    fn place(&self, t: usize) -> usize
        requires { t < self.now.i }
        ensures value { result ≡ places_of self.now.places.now t }
        ensures below { result < self.now.board.now.n }
    {
        self.places.at(t)
    }

    // The link of stop s, at most stop i, from its parent's place to place q, joined to a value; the root has no link.
    #[tactic(auto, using(jobs::proofs::Ties::both_below))]
    fn with_link(&self, s: usize, q: usize, value: Option<M::Value>) -> Option<M::Value>
        requires { (s < self.now.i + 1) × (q < self.now.board.now.n) }
        ensures { let b = self.now.board.now in let stops = stops_of b.job.now in
            result ≡ (if nat_eq s 0 then value else both M.Measure.meaning.joined (link_in b.cells.now b.n stops s (places_of self.now.places.now (parent_in stops s)) q) value) }
    {
        if s == 0 {
            return value;
        }
        let p = self.place(self.board.job.parent(s));
        join_options::<M>(self.board.link(s, p, q), value)
    }

    // What a stop below stop i adds at its place: its own value and its link's.
    #[tactic(auto, using(crate::proofs::Bounding::cost_made))]
    fn cost(&self, s: usize) -> Option<M::Value>
        requires { s < self.now.i }
        ensures { let places = places_of self.now.places.now in
            result ≡ cost_in M.Measure.meaning self.now.board.now s (places (parent_in (stops_of self.now.board.now.job.now) s)) (places s) }
    {
        let q = self.place(s);
        self.with_link(s, q, self.board.at(s, q).own)
    }

    // What all stops below stop i add.
    fn costs(&self) -> Option<M::Value>
        ensures { let places = places_of self.now.places.now in
            result ≡ total (optional M.Measure.meaning) self.now.i (λ s. cost_in M.Measure.meaning self.now.board.now s (places (parent_in (stops_of self.now.board.now.job.now) s)) (places s)) }
    {
        total::<M, _>(self.i, |s| self.cost(s))
    }

    // A sum with what stop s behind stop i adds: the least value of it and all below it, where its parent has its place.
    fn with_behind(&self, sum: Option<M::Value>, s: usize) -> Option<M::Value>
        requires { (self.now.i < s) × (s < length (stops_of self.now.board.now.job.now)) }
        ensures { result ≡ both M.Measure.meaning.joined sum (term_in M.Measure.meaning self.now.board.now self.now.i (places_of self.now.places.now) s) }
    {
        let parent = self.board.job.parent(s);
        if parent < self.i {
            let p = self.place(parent);
            join_options::<M>(sum, self.board.at(s, p).hang)
        } else {
            sum
        }
    }

    // What all stops but stop i add; beside the root none adds anything. No `total` of all stops, which was tried: over one
    // place it takes a fifth more instructions.
    #[tactic(auto, using(crate::proofs::Bounding::rest_none, crate::proofs::Bounding::root_adds))]
    pub(crate) fn rest(&self) -> Option<M::Value>
        ensures { result ≡ rest_in M.Measure.meaning self.now.board.now self.now.i (places_of self.now.places.now) }
    {
        if self.i == 0 {
            return Some(M::ZERO);
        }
        let mut sum = self.costs();
        for s in self.i + 1..self.board.job.len() {
            sum = self.with_behind(sum, s);
        }
        sum
    }

    // What stop i and all below it add at place q at the least.
    #[tactic(auto, using(crate::proofs::Bounding::here_made))]
    pub(crate) fn here(&self, q: usize) -> Option<M::Value>
        requires { q < self.now.board.now.n }
        ensures { result ≡ here_in M.Measure.meaning self.now.board.now self.now.i (places_of self.now.places.now) q }
    {
        self.with_link(self.i, q, self.board.best_value(self.i, q))
    }

    // The bound of the prefix with place q for stop i: the least score of the plans that have these places; none where
    // there is no such plan.
    pub fn bound(&self, q: usize) -> Option<M::Value>
        requires { q < self.now.board.now.n }
        ensures { IsBound M.Measure.meaning self.now q result }
    {
        Joined::of(self).bound(q)
    }

    // Whether no place is left, all being excluded.
    fn bars_all(&self, excluded: PlaceSet) -> bool
        ensures barred { (result ≡ true) → (q : ℕ) → q < self.now.board.now.n → has_bit excluded.bits q ≡ true }
        ensures told { ((q : ℕ) → q < self.now.board.now.n → has_bit excluded.bits q ≡ true) → result ≡ true }
    {
        for q in 0..self.board.n {
            if !excluded.has(q) {
                return false;
            }
        }
        true
    }

    // The first place of stop i, of those not excluded, whose bound is least. Where no place is left nothing is joined.
    #[tactic(auto, using(crate::proofs::Picking::picks_barred))]
    pub fn pick(&self, excluded: PlaceSet) -> Choice<M::Value>
        ensures picks { Picks M.Measure.meaning self.now excluded.bits self.now.board.now.n result }
        ensures within { 0 < self.now.board.now.n → result.place < self.now.board.now.n }
    {
        let mut best: Choice<M::Value> = Choice {
            place: 0,
            value: None,
        };
        if self.bars_all(excluded) {
            return best;
        }
        let joined = Joined::of(self);
        for q in 0..self.board.n {
            best = joined.try_place(excluded, best, q);
        }
        best
    }
}

ghost use Rattle.std.specs.Prelude.{◌≡◌, ◌<◌, ◌≤◌, [], ◌∷◌, ◌++◌, length, MatchResult};
ghost use Rattle.std.specs.List.{slice_get};
ghost use Rattle.jobs.specs.Trees.{AllTied, Tree, any_stop, tie_in, parent_in, child_in, judged, counted};
ghost use Rattle.jobs.specs.Jobs.{drafted, stops_of};
ghost use Rattle.jobs.specs.declared.stops.Refused.TheVariants.{Empty};

use super::{Draft, Job};
use crate::stops::{Refused, Stop, Tie};

impl Draft {
    // A draft without stops.
    pub fn new() -> Draft
        ensures { drafted result ≡ [] }
    {
        Draft {
            stops: [Stop::default(); 12],
            len: 0,
        }
    }

    // How many stops there are.
    pub fn len(&self) -> usize
        ensures told { result ≡ length (drafted self.now) }
        ensures few { result ≤ 12 }
        ensures hung { AllTied (drafted self.now) }
    {
        self.len
    }

    // The stops, in order.
    fn stops(&self) -> &[Stop]
        ensures { result.now ≡ drafted self.now }
    {
        &self.stops[..self.len]
    }

    // Takes up one more stop, or refuses and changes nothing.
    #[tactic(auto, using(crate::proofs::Grown::front_more, crate::proofs::Grown::hung_more))]
    pub fn push(&mut self, stop: Stop) -> Result<(), Refused>
        ensures told { result ≡ judged (drafted self.old) stop }
        ensures written { MatchResult result (λ _. drafted self.new ≡ drafted self.old ++ stop ∷ []) (λ _. self.new ≡ self.old) }
    {
        let n = self.len();
        if n == 12 {
            return Err(Refused::Full);
        }
        if !stop.tied_at(n) {
            return Err(Refused::WrongTie);
        }
        let mut stops = self.stops;
        stops[n] = stop;
        *self = Draft { stops, len: n + 1 };
        Ok(())
    }
}

// A job of the draft's stops; an empty draft is refused.
impl TryFrom<Draft> for Job {
    type Error = Refused;

    ghost try_from_gives = { λ draft r. MatchResult r (λ job. stops_of job ≡ drafted draft) (λ e. (e ≡ Empty) × (drafted draft ≡ [])) };

    fn try_from(draft: Draft) -> Result<Job, Refused> {
        if draft.len() == 0 {
            return Err(Refused::Empty);
        }
        Ok(Job { draft })
    }
}

impl Job {
    // A job of one stop, which every place fits.
    pub fn new() -> Job
        ensures { stops_of result ≡ any_stop ∷ [] }
    {
        Job {
            draft: Draft {
                stops: [Stop::default(); 12],
                len: 1,
            },
        }
    }

    // How many stops there are.
    pub fn len(&self) -> usize
        ensures told { result ≡ length (stops_of self.now) }
        ensures tree { Tree (stops_of self.now) }
    {
        self.draft.len()
    }

    // The stops, in order.
    pub fn stops(&self) -> &[Stop]
        ensures { result.now ≡ stops_of self.now }
    {
        self.draft.stops()
    }

    // A stop by its number, none past the last.
    pub fn stop(&self, s: usize) -> Option<Stop>
        ensures { result ≡ slice_get (stops_of self.now) s }
    {
        self.stops().get(s).copied()
    }

    // How a stop hangs on its parent; none for the root, and past the last stop.
    pub fn tie(&self, s: usize) -> Option<Tie>
        ensures { result ≡ tie_in (stops_of self.now) s }
    {
        self.stop(s)?.tie
    }

    // A stop's parent; the root counts as its own.
    #[tactic(auto, using(crate::proofs::Ties::parent_below))]
    pub fn parent(&self, s: usize) -> usize
        ensures told { result ≡ parent_in (stops_of self.now) s }
        ensures below { s < length (stops_of self.now) → result ≤ s }
    {
        self.tie(s).map_or(0, |tie| usize::from(tie.parent))
    }

    // Whether stop c hangs on stop s.
    pub fn hangs_on(&self, c: usize, s: usize) -> bool
        ensures { result ≡ child_in (stops_of self.now) s c }
    {
        c > 0 && self.parent(c) == s
    }

    // Puts the draft's stops in the place of the job's and tells how many they are; an empty draft is refused and
    // changes nothing.
    pub fn put(&mut self, draft: Draft) -> Result<usize, Refused>
        ensures told { result ≡ counted (drafted draft) }
        ensures written { MatchResult result (λ _. stops_of self.new ≡ drafted draft) (λ _. self.new ≡ self.old) }
    {
        *self = Job::try_from(draft)?;
        Ok(self.len())
    }
}

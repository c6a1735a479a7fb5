#![tactic(auto)]

ghost use Rattle.std.specs.Prelude.{◌≡◌, ℕ};
ghost use Rattle.std.specs.List.{slice_get};
ghost use Rattle.jobs.specs.Jobs.{stops_of};
ghost use Rattle.sets.specs.Sets.{has_bit};
ghost use Rattle.choices.specs.Fits.{fits, Chosen, Answered};

use answers::{Choices, Refusal};
use jobs::job::Job;
use jobs::stops::Stop;
use sets::PlaceSet;
use streets::street::Street;

pub mod answers;

// The set of the street's places that a stop takes. A stop of any kind asks for no place's kind, which may be slow to find.
// A loop: a filter with a fold was tried and not proved, as `with` says its result place by place only.
#[tactic(auto, using(crate::proofs::Grown::with_next, crate::proofs::Grown::without_next))]
fn fitting<S: Street>(street: &S, stop: Stop) -> PlaceSet
    ensures { (p : ℕ) → has_bit result.bits p ≡ fits (S.Street.meaning street.now) stop.kind p }
{
    let mut set = PlaceSet::empty();
    for place in 0..street.places() {
        if stop.kind == 0 || stop.takes(street.kind(place)) {
            set = set.with(place);
        }
    }
    set
}

// That set with its size and its least place. Its answer stands in proofs/: named at the function, one lemma for all three facts
// was tried and not found, since the fact of the set speaks of every place.
fn chosen<S: Street>(street: &S, stop: Stop) -> Choices
    ensures { Chosen (S.Street.meaning street.now) stop.kind result }
{
    let set = fitting(street, stop);
    Choices {
        set,
        size: set.size(),
        least: set.least(),
    }
}

// The places that fit a stop of the job; refused where the job has no such stop.
pub fn choices<S: Street>(street: &S, job: &Job, stop: usize) -> Result<Choices, Refusal>
    ensures { Answered (S.Street.meaning street.now) (slice_get (stops_of job.now) stop) result }
{
    let found = job.stop(stop).ok_or(Refusal::NoSuchStop)?;
    Ok(chosen(street, found))
}

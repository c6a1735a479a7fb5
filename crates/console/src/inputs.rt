ghost use Rattle.std.specs.Prelude.{◌≡◌, ◌≤◌, length, IfOk, MatchResult};
ghost use Rattle.books.specs.Books.{room_in, over};
ghost use Rattle.jobs.specs.Jobs.{stops_of};
ghost use Rattle.console.specs.declared.inputs.InputRefusal.TheVariants.{Limit, Text};
ghost use Rattle.console.specs.Inputs.{book_in, job_in, inputs_of};

use crate::limit::{LimitRefusal, admit};
use books::book::read_book;
use books::line::Counts;
use faults::TextFault;
use job_texts::text::read_job;
use jobs::job::Job;
use streets::legs::LegRecord;

// How much was read: places and legs, and stops.
#[derive(Clone, Copy, Debug, PartialEq, Eq)]
pub struct Inputs {
    pub street: Counts,
    pub stops: usize,
}

// Why the console does not go on: a text that it does not read, or a fault in one.
#[derive(Clone, Copy, Debug, PartialEq, Eq)]
pub enum InputRefusal {
    Limit(LimitRefusal),
    Text(TextFault),
}

impl From<LimitRefusal> for InputRefusal {
    ghost from_gives = { λ f r. r ≡ Limit f };

    fn from(refusal: LimitRefusal) -> InputRefusal {
        InputRefusal::Limit(refusal)
    }
}

impl From<TextFault> for InputRefusal {
    ghost from_gives = { λ f r. r ≡ Text f };

    fn from(fault: TextFault) -> InputRefusal {
        InputRefusal::Text(fault)
    }
}

// Judges and reads the street book, then the job text; the first refused one decides. What the book tells goes to the
// fronts of the lists, and the stops of the job text in the place of the job's.
pub fn read_inputs(
    book: &[u8],
    text: &[u8],
    kinds: &mut [u8],
    legs: &mut [LegRecord],
    job: &mut Job,
) -> Result<Inputs, InputRefusal>
    ensures value { result ≡ inputs_of (book_in (room_in (length kinds.old) (length legs.old)) book.now) (job_in text.now) }
    ensures lists { MatchResult (book_in (room_in (length kinds.old) (length legs.old)) book.now) (λ b. (kinds.new ≡ over b.kinds kinds.old) × (legs.new ≡ over b.legs legs.old)) (λ _. (kinds.new ≡ kinds.old) × (legs.new ≡ legs.old)) }
    ensures job { MatchResult result (λ _. IfOk (job_in text.now) (λ stops. stops_of job.new ≡ stops)) (λ _. job.new ≡ job.old) }
    ensures within { IfOk result (λ i. (i.street.places ≤ 64) × (i.street.places ≤ length kinds.old) × (i.street.legs ≤ length legs.old)) }
{
    admit(book)?;
    let street = read_book(book, kinds, legs)?;
    admit(text)?;
    let stops = read_job(text, job)?;
    Ok(Inputs { street, stops })
}

ghost use Rattle.std.specs.Prelude.{◌≡◌, MatchResult};
ghost use Rattle.texts.specs.Cut.{rows};
ghost use Rattle.jobs.specs.Jobs.{stops_of};
ghost use Rattle.texts.specs.Rows.{read_rows, read_text};
ghost use Rattle.job_texts.specs.Texts.{job_lines, read_job, drafted_in, tally};

use crate::line::read_line;
use faults::{LineFault, Text, TextFault, TextWrong};
use jobs::job::{Draft, Job};
use texts::length::check_length;
use texts::reader::Reader;

// The stops that the lines tell, or the first refused line's fault.
// A trait for books and jobs, with state, entry and what an entry keeps as members, would be longer than this one loop.
fn read_rows(text: &[u8]) -> Result<Draft, LineFault>
    ensures { drafted_in result ≡ read_rows job_lines 0 1 (rows text.now) }
{
    let mut reader = Reader::new(Text::Job, text);
    let mut draft = Draft::new();
    while reader.next_line()? {
        let stop = read_line(&mut reader, draft.len())?;
        draft.push(stop).unwrap();
    }
    Ok(draft)
}

// The stops of a whole text, which must not be too long.
#[tactic(auto, using(crate::proofs::Passes::job_refused))]
fn read_draft(text: &[u8]) -> Result<Draft, TextFault>
    ensures { drafted_in result ≡ read_text job_lines 0 text.now }
{
    check_length(Text::Job, text)?;
    Ok(read_rows(text)?)
}

// Reads a job text: its stops are put in the place of the job's, and their number is told. A refused text leaves the
// job as it was.
pub fn read_job(text: &[u8], job: &mut Job) -> Result<usize, TextFault>
    ensures value { result ≡ tally (read_job text.now) }
    ensures put { MatchResult (read_job text.now) (λ stops. stops_of job.new ≡ stops) (λ _. job.new ≡ job.old) }
{
    let draft = read_draft(text)?;
    job.put(draft)
        .map_err(|_| Text::Job.fault(TextWrong::NoLines))
}

ghost use Rattle.std.specs.Prelude.{◌≡◌, ◌<◌, ◌≤◌, true, length, IfSome, IfOk, None};
ghost use Rattle.jobs.specs.Trees.{tied};
ghost use Rattle.texts.specs.Means.{fields_left, spot_of};
ghost use Rattle.texts.specs.Rules.{Kept};
ghost use Rattle.job_texts.specs.Lines.{link_of, tie_of, parts_of, judged, stop_of, line_of, Keeps};

use faults::{FieldWrong, LineFault, LineWrong, Spot};
use jobs::stops::{Link, Stop, Tie};
use texts::number::LAST_KIND;
use texts::reader::Reader;

// The most that a stop and a parent may be.
const LAST_STOP: u8 = 11;

// The fields of a stop line: a lone `-` as parent is none, and the link is a letter.
#[derive(Clone, Copy, Debug, PartialEq, Eq)]
pub struct StopLine {
    pub number: u8,
    pub parent: Option<u8>,
    pub kind: u8,
    pub letter: Option<u8>,
}

impl StopLine {
    // The fields of a stop line after its letter.
    fn read(reader: &mut Reader) -> Result<StopLine, LineFault>
        requires { 3 < length (fields_left reader.old) }
        ensures value { result ≡ parts_of (spot_of reader.old) (fields_left reader.old) }
        ensures low { IfOk result (λ l. (l.number ≤ 11) × IfSome l.parent (λ p. p ≤ 11)) }
        ensures kept { Kept reader.old reader.new }
    {
        Ok(StopLine {
            number: reader.number(LAST_STOP)?,
            parent: reader.number_or_dash(LAST_STOP)?,
            kind: reader.number(LAST_KIND)?,
            letter: reader.letter(),
        })
    }

    // The tie to a parent by its link's letter.
    fn link(self, at: Spot, parent: u8) -> Result<Option<Tie>, LineFault>
        ensures { result ≡ link_of at parent self.letter }
    {
        match self.letter.map(Link::try_from) {
            Some(Ok(link)) => Ok(Some(Tie { parent, link })),
            _ => Err(at.fault(FieldWrong::WrongLink, 5)),
        }
    }

    // The root has `-` for its link.
    fn root(self, at: Spot) -> Result<Option<Tie>, LineFault>
        ensures { result ≡ tie_of at 0 None self.letter }
    {
        match self.letter {
            Some(b'-') => Ok(None),
            _ => Err(at.fault(FieldWrong::WrongLink, 5)),
        }
    }

    // How the stop after `told` others is tied.
    fn tie(self, at: Spot, told: usize) -> Result<Option<Tie>, LineFault>
        ensures value { result ≡ tie_of at told self.parent self.letter }
        ensures keeps { IfOk result (λ t. tied told t ≡ true) }
    {
        match self.parent {
            None if told == 0 => self.root(at),
            Some(parent) if usize::from(parent) < told => self.link(at, parent),
            _ => Err(at.fault(FieldWrong::WrongParent, 3)),
        }
    }

    // The stop that the line tells after `told` others.
    fn stop(self, at: Spot, told: usize) -> Result<Stop, LineFault>
        requires { self.number ≤ 11 }
        ensures value { result ≡ judged at told self }
        ensures keeps { Keeps told result }
    {
        if usize::from(self.number) != told {
            return Err(at.fault(FieldWrong::NotNextStop, 2));
        }
        Ok(Stop {
            kind: self.kind,
            tie: self.tie(at, told)?,
        })
    }
}

// A stop line after its letter.
fn read_stop(reader: &mut Reader, told: usize) -> Result<Stop, LineFault>
    requires { 3 < length (fields_left reader.old) }
    ensures value { result ≡ stop_of (spot_of reader.old) told (fields_left reader.old) }
    ensures keeps { Keeps told result }
    ensures kept { Kept reader.old reader.new }
{
    let at = reader.spot();
    StopLine::read(reader)?.stop(at, told)
}

// The stop that the line at hand tells after `told` others.
#[tactic(auto, unfolding(crate::specs::Lines::line_of))]
pub fn read_line(reader: &mut Reader, told: usize) -> Result<Stop, LineFault>
    ensures value { result ≡ line_of (spot_of reader.old) told (fields_left reader.old) }
    ensures keeps { Keeps told result }
    ensures kept { Kept reader.old reader.new }
{
    match reader.letter() {
        Some(b'S') => {
            reader.expect_fields(4)?;
            read_stop(reader, told)
        }
        _ => Err(reader.field_fault(FieldWrong::NotLetter, 1)),
    }
}

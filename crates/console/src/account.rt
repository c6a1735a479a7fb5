ghost use Rattle.std.specs.Prelude.{◌≡◌, ℕ, ◌≤◌, List, length, IfOk, MatchResult};
ghost use Rattle.books.specs.Books.{over};
ghost use Rattle.console.specs.Inputs.{number_of, line_of, field_of};
ghost use Rattle.console.specs.Lines.{shown, printed};
ghost use Rattle.console.specs.Accounts.{refusal_line, totals_line, stop_line};

use crate::inputs::{InputRefusal, Inputs};
use crate::line::Line;
use crate::line::build::LineRefusal;
use choices::answers::Choices;

// What the console prints as one line.
pub trait ToLine {
    // The line's bytes.
    ghost bytes: { Self → List ℕ };

    // The line, put together.
    fn to_line(&self) -> Line
        ensures { shown result ≡ bytes self.now };
}

// A refusal: its number, and the line and the field of a text that it stands in, 0 where there is none.
#[derive(Clone, Copy, Debug, PartialEq, Eq)]
pub struct Refusal {
    pub number: u8,
    pub line: usize,
    pub field: usize,
}

impl From<InputRefusal> for Refusal {
    ghost from_gives = { λ i r. (r.number ≡ number_of i) × (r.line ≡ line_of i) × (r.field ≡ field_of i) };

    fn from(refusal: InputRefusal) -> Refusal {
        match refusal {
            InputRefusal::Limit(limit) => Refusal {
                number: limit.number(),
                line: 0,
                field: 0,
            },
            InputRefusal::Text(fault) => Refusal {
                number: fault.number(),
                line: fault.line(),
                field: fault.field(),
            },
        }
    }
}

// On which places a stop can be put.
#[derive(Clone, Copy, Debug, PartialEq, Eq)]
pub struct StopChoices {
    pub stop: usize,
    pub choices: Choices,
}

impl ToLine for Refusal {
    ghost bytes = { λ r. refusal_line r.number r.line r.field };

    fn to_line(&self) -> Line {
        Line::new()
            .text("E ")
            .number(self.number)
            .text(" ")
            .number(self.line)
            .text(" ")
            .number(self.field)
            .text("\n")
    }
}

// How many places, legs and stops were read.
impl ToLine for Inputs {
    ghost bytes = { λ i. totals_line i.street.places i.street.legs i.stops };

    fn to_line(&self) -> Line {
        Line::new()
            .text("places ")
            .number(self.street.places)
            .text(" legs ")
            .number(self.street.legs)
            .text(" stops ")
            .number(self.stops)
            .text("\n")
    }
}

// The set of the places, its size and its least place.
impl ToLine for StopChoices {
    ghost bytes = { λ s. stop_line s.stop s.choices };

    fn to_line(&self) -> Line {
        Line::new()
            .text("stop ")
            .number(self.stop)
            .text(" set ")
            .number(self.choices.set.bits())
            .text(" size ")
            .number(self.choices.size)
            .text(" least ")
            .number(self.choices.least)
            .text("\n")
    }
}

// Writes a line to the front of `out` and tells its length, with fewer than 96 bytes of room nothing.
pub fn write_line<L: ToLine>(out: &mut [u8], shows: &L) -> Result<usize, LineRefusal>
    ensures value { result ≡ printed (length out.old) (L.bytes shows.now) }
    ensures written { MatchResult result (λ _. out.new ≡ over (L.bytes shows.now) out.old) (λ _. out.new ≡ out.old) }
    ensures within { IfOk result (λ n. n ≤ 96) }
{
    shows.to_line().write(out)
}

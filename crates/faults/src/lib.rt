#![tactic(auto)]

ghost use Rattle.std.specs.Prelude.{◌≡◌};
ghost use Rattle.faults.specs.declared.LineFault.TheVariants.{Field};
ghost use Rattle.faults.specs.declared.Cause.TheVariants.{Whole};
ghost use Rattle.faults.specs.Faults.{text_of, in_text, fault_in, number_in_line, spot_in_line, number_of_cause, spot_of_cause, number_of, line_of, field_of, field_fault, line_fault, spot as spotAt};

// Which of the two texts: a street book or a job.
#[derive(Clone, Copy, Debug, PartialEq, Eq)]
pub enum Text {
    Book,
    Job,
}

// A spot in a text. Lines and fields count from 1, and field 0 is the line as a whole: a rule of the formats, in whose
// numbers a refusal is printed, so the field is no `Option`.
#[derive(Clone, Copy, Debug, PartialEq, Eq)]
pub struct Spot {
    pub text: Text,
    pub line: usize,
    pub field: usize,
}

// What is wrong with a field, with the number that stands for it.
#[derive(Clone, Copy, Debug, PartialEq, Eq)]
pub enum FieldWrong {
    // the first field is not a letter of this text
    NotLetter = 12,
    // not one to five digits
    NotNumber = 14,
    // a number above its bound
    AboveBound = 15,
    // a place that is not the next number from 0
    NotNextPlace = 16,
    // a leg's end that no earlier line tells
    UntoldPlace = 17,
    // a leg from a place to itself
    SameEnds = 18,
    // a place of kind 0
    KindZero = 19,
    // a stop that is not the next number from 0
    NotNextStop = 21,
    // a parent that is not below its stop, or `-` or a number where the other belongs
    WrongParent = 22,
    // neither `d` nor `r`, or for the root not `-`
    WrongLink = 23,
}

// What is wrong with a line as a whole, with its number.
#[derive(Clone, Copy, Debug, PartialEq, Eq)]
pub enum LineWrong {
    // the closing byte is missing
    Unended = 11,
    // a wrong number of fields
    FieldCount = 13,
    // no room for what the line tells
    Full = 20,
}

// What is wrong with a text as a whole, with its number.
#[derive(Clone, Copy, Debug, PartialEq, Eq)]
pub enum TextWrong {
    // more than 65,535 bytes
    TooLong = 10,
    // a job without lines
    NoLines = 24,
}

// What is wrong, and where.
#[derive(Clone, Copy, Debug, PartialEq, Eq)]
pub struct Fault<W> {
    pub wrong: W,
    pub at: Spot,
}

// What is wrong with a field, and where.
pub type FieldFault = Fault<FieldWrong>;

// What is wrong in a line: a field of it, or the line as a whole.
#[derive(Clone, Copy, Debug, PartialEq, Eq)]
pub enum LineFault {
    Field(FieldFault),
    Whole(Fault<LineWrong>),
}

// What is wrong in a text: the text as a whole, or a line of it.
#[derive(Clone, Copy, Debug, PartialEq, Eq)]
pub enum Cause {
    Whole(TextWrong),
    Line(LineFault),
}

// The fault of a text, with the text that it is in.
#[derive(Clone, Copy, Debug, PartialEq, Eq)]
pub struct TextFault {
    pub text: Text,
    pub cause: Cause,
}

impl From<FieldFault> for LineFault {
    ghost from_gives = { λ f r. r ≡ Field f };

    fn from(fault: FieldFault) -> LineFault {
        LineFault::Field(fault)
    }
}

impl From<LineFault> for TextFault {
    ghost from_gives = { λ f r. r ≡ in_text f };

    fn from(fault: LineFault) -> TextFault {
        let cause = Cause::Line(fault);
        TextFault {
            text: fault.text(),
            cause,
        }
    }
}

impl Text {
    // What is wrong with the text as a whole.
    pub fn fault(self, wrong: TextWrong) -> TextFault
        ensures { result ≡ fault_in self (Whole wrong) }
    {
        let cause = Cause::Whole(wrong);
        TextFault { text: self, cause }
    }
}

impl Spot {
    // What is wrong with the field at the spot.
    pub fn field_fault(self, wrong: FieldWrong) -> FieldFault
        ensures { result ≡ field_fault wrong self }
    {
        Fault { wrong, at: self }
    }

    // What is wrong with a field of the line that the spot is in.
    pub fn fault(self, wrong: FieldWrong, field: usize) -> LineFault
        ensures { result ≡ Field (field_fault wrong (spotAt self.text self.line field)) }
    {
        LineFault::Field(Spot { field, ..self }.field_fault(wrong))
    }

    // What is wrong with the line that the spot is in, as a whole.
    pub fn line_fault(self, wrong: LineWrong) -> LineFault
        ensures { result ≡ line_fault wrong self.text self.line }
    {
        let at = Spot { field: 0, ..self };
        LineFault::Whole(Fault { wrong, at })
    }
}

impl LineFault {
    // Where the fault stands; field 0 is the line as a whole.
    fn spot(self) -> Spot
        ensures { result ≡ spot_in_line self }
    {
        match self {
            LineFault::Field(Fault { at, .. }) | LineFault::Whole(Fault { at, .. }) => at,
        }
    }

    // Which text the line stands in.
    pub fn text(self) -> Text
        ensures { result ≡ text_of self }
    {
        self.spot().text
    }

    // The number that stands for the fault.
    fn number(self) -> u8
        ensures { result ≡ number_in_line self }
    {
        match self {
            LineFault::Field(fault) => fault.wrong as u8,
            LineFault::Whole(fault) => fault.wrong as u8,
        }
    }
}

impl Cause {
    // The number that stands for the fault.
    fn number(self) -> u8
        ensures { result ≡ number_of_cause self }
    {
        match self {
            Cause::Whole(wrong) => wrong as u8,
            Cause::Line(fault) => fault.number(),
        }
    }

    // Where the fault stands, if it stands in a line.
    fn spot(self) -> Option<Spot>
        ensures { result ≡ spot_of_cause self }
    {
        match self {
            Cause::Whole(_) => None,
            Cause::Line(fault) => Some(fault.spot()),
        }
    }
}

impl TextFault {
    // The number that stands for the fault.
    pub fn number(self) -> u8
        ensures { result ≡ number_of self }
    {
        self.cause.number()
    }

    // The line of the fault, 0 for the whole text. It and `field` are a line each: a contract names the number that it answers.
    pub fn line(self) -> usize
        ensures { result ≡ line_of self }
    {
        self.cause.spot().map_or(0, |at| at.line)
    }

    // The field of the fault, 0 for the whole line.
    pub fn field(self) -> usize
        ensures { result ≡ field_of self }
    {
        self.cause.spot().map_or(0, |at| at.field)
    }
}

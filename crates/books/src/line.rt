ghost use Rattle.std.specs.Prelude.{◌≡◌, ◌<◌, length, IfOk};
ghost use Rattle.texts.specs.Means.{fields_left, spot_of};
ghost use Rattle.texts.specs.Rules.{Kept};
ghost use Rattle.books.specs.Books.{advance};
ghost use Rattle.books.specs.Lines.{place_of, leg_of, line_of, Fits};

use faults::{FieldWrong, LineFault, LineWrong};
use streets::legs::{Leg, LegRecord};
use texts::number::LAST_KIND;
use texts::reader::Reader;

// What one line of a book tells.
#[derive(Clone, Copy, Debug, PartialEq, Eq)]
pub enum Entry {
    Place { kind: u8 },
    Leg(LegRecord),
}

// How many places and legs were told.
#[derive(Clone, Copy, Debug, PartialEq, Eq)]
pub struct Counts {
    pub places: usize,
    pub legs: usize,
}

// How many kinds and legs there is room for. A type beside `Counts`, with the fields that the lists have: what was told and
// what there is room for are compared, and may not stand for each other.
#[derive(Clone, Copy, Debug, PartialEq, Eq)]
pub struct Room {
    pub kinds: usize,
    pub legs: usize,
}

// How far a book is read: what was told, and what there is room for.
#[derive(Clone, Copy, Debug, PartialEq, Eq)]
pub struct Progress {
    pub told: Counts,
    pub room: Room,
}

// The most that a place, and a climb or a number of seconds may be.
const LAST_PLACE: u8 = 63;

const MOST: u16 = 65535;

impl Progress {
    // A place line after its letter.
    #[tactic(auto, unfolding(crate::specs::Lines::place_of))]
    fn read_place(self, reader: &mut Reader) -> Result<Entry, LineFault>
        requires { 1 < length (fields_left reader.old) }
        ensures value { result ≡ place_of (spot_of reader.old) self.told self.room (fields_left reader.old) }
        ensures fits { IfOk result (λ e. Fits self.told self.room e) }
        ensures kept { Kept reader.old reader.new }
    {
        let place = reader.number(LAST_PLACE)?;
        let kind = reader.number(LAST_KIND)?;
        if usize::from(place) != self.told.places {
            return Err(reader.field_fault(FieldWrong::NotNextPlace, 2));
        }
        if kind == 0 {
            return Err(reader.field_fault(FieldWrong::KindZero, 3));
        }
        if self.told.places >= self.room.kinds {
            return Err(reader.line_fault(LineWrong::Full));
        }
        Ok(Entry::Place { kind })
    }

    // A leg line after its letter.
    #[tactic(auto, unfolding(crate::specs::Lines::leg_of))]
    fn read_leg(self, reader: &mut Reader) -> Result<Entry, LineFault>
        requires { 3 < length (fields_left reader.old) }
        ensures value { result ≡ leg_of (spot_of reader.old) self.told self.room (fields_left reader.old) }
        ensures fits { IfOk result (λ e. Fits self.told self.room e) }
        ensures kept { Kept reader.old reader.new }
    {
        let from = reader.number(LAST_PLACE)?;
        let to = reader.number(LAST_PLACE)?;
        let climb = reader.number(MOST)?;
        let seconds = reader.number(MOST)?;
        if usize::from(from) >= self.told.places {
            return Err(reader.field_fault(FieldWrong::UntoldPlace, 2));
        }
        if usize::from(to) >= self.told.places {
            return Err(reader.field_fault(FieldWrong::UntoldPlace, 3));
        }
        if from == to {
            return Err(reader.field_fault(FieldWrong::SameEnds, 3));
        }
        if self.told.legs >= self.room.legs {
            return Err(reader.line_fault(LineWrong::Full));
        }
        let leg = Leg { climb, seconds };
        Ok(Entry::Leg(LegRecord { from, to, leg }))
    }

    // What the line at hand tells.
    #[tactic(auto, unfolding(crate::specs::Lines::line_of))]
    pub fn read_line(self, reader: &mut Reader) -> Result<Entry, LineFault>
        ensures value { result ≡ line_of (spot_of reader.old) self.told self.room (fields_left reader.old) }
        ensures fits { IfOk result (λ e. Fits self.told self.room e) }
        ensures kept { Kept reader.old reader.new }
    {
        match reader.letter() {
            Some(b'P') => {
                reader.expect_fields(2)?;
                self.read_place(reader)
            }
            Some(b'L') => {
                reader.expect_fields(4)?;
                self.read_leg(reader)
            }
            _ => Err(reader.field_fault(FieldWrong::NotLetter, 1)),
        }
    }

    // The counts after an entry for which there is room.
    pub(crate) fn after(self, entry: Entry) -> Progress
        requires { Fits self.told self.room entry }
        ensures { (result.told ≡ advance self.told entry) × (result.room ≡ self.room) }
    {
        let mut told = self.told;
        match entry {
            Entry::Place { .. } => told.places += 1,
            Entry::Leg(_) => told.legs += 1,
        }
        Progress { told, ..self }
    }
}

ghost use Rattle.std.specs.Prelude.{◌≡◌, ◌<◌, min, take};
ghost use Rattle.streets.specs.Lists.{last_leg, list_meaning};
ghost use Rattle.streets.specs.Sounds.{list_sound};

use crate::legs::{Leg, LegRecord};
use crate::street::Street;

// The most places, and the most leg records, that a list street reads.
pub const MOST_PLACES: usize = 64;

pub const MOST_RECORDS: usize = 4096;

// A street over a lent list of kinds, one for each place, and a lent list of leg records that it searches.
#[derive(Clone, Copy)]
pub struct ListStreet<'a> {
    kinds: &'a [u8],
    records: &'a [LegRecord],
}

impl<'a> ListStreet<'a> {
    pub fn new(kinds: &'a [u8], records: &'a [LegRecord]) -> ListStreet<'a>
        ensures { (result.kinds.now ≡ kinds.now) × (result.records.now ≡ records.now) }
    {
        ListStreet { kinds, records }
    }
}

// The records that count.
#[tactic(auto, using(std::proofs::lemmas::List::take_min))]
fn first_records(records: &[LegRecord]) -> &[LegRecord]
    ensures { result.now ≡ take 4096 records.now }
{
    &records[..MOST_RECORDS.min(records.len())]
}

// The leg of the last record that tells the pair.
fn last_leg(records: &[LegRecord], from: usize, to: usize) -> Option<Leg>
    ensures { result ≡ last_leg records.now from to }
{
    records
        .iter()
        .rfind(|r| usize::from(r.from) == from && usize::from(r.to) == to)
        .map(|r| r.leg)
}

impl<'a> Street for ListStreet<'a> {
    ghost meaning = { λ s. list_meaning s.kinds.now s.records.now };

    ghost sound = { λ s. list_sound s.kinds.now s.records.now };

    fn places(&self) -> usize {
        self.kinds.len().min(MOST_PLACES)
    }

    fn kind(&self, place: usize) -> u8 {
        let kinds = &self.kinds[..self.places()];
        kinds.get(place).copied().unwrap_or(0)
    }

    fn leg(&self, from: usize, to: usize) -> Option<Leg> {
        let places = self.places();
        if from >= places || to >= places || from == to {
            return None;
        }
        last_leg(first_records(self.records), from, to)
    }
}

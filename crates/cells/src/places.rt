ghost use Rattle.std.specs.Prelude.{◌≡◌, ℕ, ◌<◌, ◌≤◌, length, ◌≢◌};

// The place of each stop of a job, by the stop's number.
#[derive(Debug, Clone, Copy, PartialEq, Eq, PartialOrd, Ord)]
pub struct Places {
    // twelve, whatever the job: a lent cell has a fixed size
    by_stop: [u8; 12],
    ghost twelve: { length by_stop ≡ 12 },
}

impl Places {
    ghost use Rattle.cells.specs.Cells.{places_of, first_places, all_zero};

    // Place 0 for each stop.
    pub fn zero() -> Places
        ensures { result ≡ all_zero }
    {
        Places { by_stop: [0; 12] }
    }

    // The place of a stop.
    pub fn at(&self, s: usize) -> usize
        requires { s < 12 }
        ensures { result ≡ places_of self.now s }
    {
        usize::from(self.by_stop[s])
    }

    // The places of the first stops, m of them, in order.
    pub fn first(&self, m: usize) -> &[u8]
        requires { m ≤ 12 }
        ensures { result.now ≡ first_places m self.now }
    {
        &self.by_stop[..m]
    }

    // These places, with another one for a stop.
    pub fn with(self, s: usize, place: u8) -> Places
        requires { s < 12 }
        ensures there { places_of result s ≡ place }
        ensures others { (t : ℕ) → (t ≢ s) → places_of result t ≡ places_of self t }
    {
        let mut by_stop = self.by_stop;
        by_stop[s] = place;
        Places { by_stop }
    }
}

// The places of twelve stops, each under its stop's number.
impl From<[u8; 12]> for Places {
    ghost from_gives = { λ places r. r.by_stop ≡ places };

    fn from(places: [u8; 12]) -> Places {
        Places { by_stop: places }
    }
}

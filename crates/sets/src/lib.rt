#![tactic(auto)]

ghost use Rattle.std.specs.Prelude.{◌≡◌, ℕ, ◌≤◌, false, ◌&&◌, ◌||◌, ◌==◌, nat_lt};
ghost use Rattle.sets.specs.Sets.{has_bit, count_to, Least};

// A set of places below 64 as one 64-bit number: place p stands at the bit of value 2^p.
#[derive(Clone, Copy, Debug, PartialEq, Eq)]
pub struct PlaceSet {
    bits: u64,
}

impl PlaceSet {
    // The set without places.
    #[tactic(auto, using(crate::proofs::Laws::has_none))]
    pub fn empty() -> PlaceSet
        ensures number { result.bits ≡ 0 }
        ensures none { (q : ℕ) → has_bit result.bits q ≡ false }
    {
        PlaceSet { bits: 0 }
    }

    // The number that holds the set.
    pub fn bits(self) -> u64
        ensures { result ≡ self.bits }
    {
        self.bits
    }

    // Whether a place is in the set; none from 64 on is.
    #[tactic(auto, using(std::proofs::lemmas::Nat::Bits::shr_and_one, crate::proofs::Laws::has_past), unfolding(crate::specs::Sets::has_bit))]
    pub fn has(self, place: usize) -> bool
        ensures told { result ≡ has_bit self.bits place }
        ensures outside { 64 ≤ place → result ≡ false }
    {
        place < 64 && (self.bits >> place) & 1 == 1
    }

    // The set with one more place; a place from 64 on changes nothing.
    #[tactic(auto, using(crate::proofs::Laws::has_set))]
    pub fn with(self, place: usize) -> PlaceSet
        ensures added { (q : ℕ) → has_bit result.bits q ≡ (has_bit self.bits q || (q == place && nat_lt place 64)) }
        ensures outside { 64 ≤ place → result ≡ self }
    {
        if place >= 64 {
            return self;
        }
        PlaceSet {
            bits: self.bits | (1 << place),
        }
    }

    // How many places are in the set.
    #[tactic(auto, using(crate::proofs::Laws::ones_count))]
    pub fn size(self) -> u32
        ensures { result ≡ count_to (has_bit self.bits) 64 }
    {
        self.bits.count_ones()
    }

    // The least place in the set, 64 where it is empty: that it is 64, and not none, is a rule of the project.
    #[tactic(auto, using(crate::proofs::Laws::trailing_least))]
    pub fn least(self) -> u32
        ensures { Least (has_bit self.bits) 64 result }
    {
        self.bits.trailing_zeros()
    }
}

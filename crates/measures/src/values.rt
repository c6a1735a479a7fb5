ghost use Rattle.std.specs.Prelude.{◌≤◌};

// The values of the three measures. Every number in them is at most 4,294,967,295, and every such
// number, or pair of numbers, is a value. Values compare as the measures order them.

// The time of some legs: their seconds, added up.
#[derive(Clone, Copy, Debug, PartialEq, Eq, PartialOrd, Ord)]
pub struct TimeValue {
    pub seconds: u32,
    ghost fits: { seconds ≤ 4294967295 },
}

// The longest of some legs, in seconds. It has a time's field: that the three measures differ in their value types is a
// rule of the project.
#[derive(Clone, Copy, Debug, PartialEq, Eq, PartialOrd, Ord)]
pub struct LongestValue {
    pub seconds: u32,
    ghost fits: { seconds ≤ 4294967295 },
}

// The climb of some legs in metres, and their seconds.
#[derive(Clone, Copy, Debug, PartialEq, Eq, PartialOrd, Ord)]
pub struct ClimbValue {
    pub climb: u32,
    pub seconds: u32,
    ghost fits: { (climb ≤ 4294967295) × (seconds ≤ 4294967295) },
}

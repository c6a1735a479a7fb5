// A leg: the direct way from one place to another.
#[derive(Clone, Copy, Debug, PartialEq, Eq, Default)]
pub struct Leg {
    // metres
    pub climb: u16,
    pub seconds: u16,
}

// A leg as it stands in a list, with the places that it joins.
#[derive(Clone, Copy, Debug, PartialEq, Eq, Default)]
pub struct LegRecord {
    pub from: u8,
    pub to: u8,
    pub leg: Leg,
}

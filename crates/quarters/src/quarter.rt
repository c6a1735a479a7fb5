ghost use Rattle.std.specs.Prelude.{◌*◌, ◌≤◌};

pub mod grid;

// A quarter: a grid of crossings, each a place, with legs to its neighbours.
#[derive(Clone, Copy, Debug, PartialEq, Eq)]
pub struct Quarter {
    width: u8,
    height: u8,
    kinds: u8,
    seconds: u16,
    climb: u16,
    ghost wide: { 1 ≤ width },
    ghost high: { 1 ≤ height },
    ghost few: { width * height ≤ 64 },
    ghost kinded: { 1 ≤ kinds },
}

// How a value shows: as one number or as two.
#[derive(Clone, Copy, Debug, PartialEq, Eq)]
pub enum Shown {
    One(u32),
    Two(u32, u32),
}

ghost use Rattle.std.specs.Prelude.{◌≡◌, ℕ, ◌<◌, ◌≤◌, IfOk, MatchOption};
ghost use Rattle.texts.specs.Numbers.{valued, numeral};

use faults::{FieldFault, FieldWrong, Spot};

// The most that a kind may be, in both texts.
pub const LAST_KIND: u8 = 255;

// A type that a number in a field is read as. Each type has an impl of its own, since the library's narrowing names its type; as
// a default body it would ask for `TryFrom<u64>` and its law in every type. `u64` is there for a caller who wants any number.
pub trait Unsigned: Copy {
    // The number that a value is.
    ghost value: { Self → ℕ };

    // The number `n`, or none where it is above the bound.
    fn up_to(n: u64, bound: Self) -> Option<Self>
        ensures { MatchOption result (value bound < n) (λ v. (value v ≡ n) × (n ≤ value bound)) };
}

impl Unsigned for u8 {
    ghost value = { λ v. v };

    fn up_to(n: u64, bound: u8) -> Option<u8> {
        u8::try_from(n).ok().filter(|v| *v <= bound)
    }
}

impl Unsigned for u16 {
    ghost value = { λ v. v };

    fn up_to(n: u64, bound: u16) -> Option<u16> {
        u16::try_from(n).ok().filter(|v| *v <= bound)
    }
}

impl Unsigned for u64 {
    ghost value = { λ v. v };

    fn up_to(n: u64, bound: u64) -> Option<u64> {
        Some(n).filter(|v| *v <= bound)
    }
}

// The number in the field at a spot: one to five digits, at most `bound`.
pub fn number<N: Unsigned>(part: &[u8], bound: N, at: Spot) -> Result<N, FieldFault>
    ensures value { valued N.value result ≡ numeral (N.value bound) at part.now }
    ensures high { IfOk result (λ v. N.value v ≤ N.value bound) }
{
    if part.is_empty() || part.len() > 5 {
        return Err(at.field_fault(FieldWrong::NotNumber));
    }
    // The running value has 64 bits whatever the bound: a rule of the project, so no `parse` into `N` stands here.
    let mut value: u64 = 0;
    for b in part {
        if !b.is_ascii_digit() {
            return Err(at.field_fault(FieldWrong::NotNumber));
        }
        value = value * 10 + u64::from(*b - b'0');
    }
    // no `ok_or`, which would make a fault for every number
    match N::up_to(value, bound) {
        Some(value) => Ok(value),
        None => Err(at.field_fault(FieldWrong::AboveBound)),
    }
}

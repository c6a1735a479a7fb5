ghost use Rattle.std.specs.Prelude.{◌≡◌, length};
ghost use Rattle.console.specs.Limits.{admitted, number_of};

// The most bytes of a text that the console reads.
pub const MOST_BYTES: usize = 4096;

// Why a text is not read.
#[derive(Clone, Copy, Debug, PartialEq, Eq)]
pub enum LimitRefusal {
    // more than 4,096 bytes
    TooLong = 48,
}

impl LimitRefusal {
    // The number that stands for the refusal. No trait for it: each enum's contract names its own table of numbers, and
    // a trait for all of them would be longer than these bodies.
    pub fn number(self) -> u8
        ensures { result ≡ number_of self }
    {
        self as u8
    }
}

// Tells before a text is read whether the console reads it, with its length. It is no use of `texts::check_length`, whose
// limit and fault are others: the two share one comparison.
pub fn admit(text: &[u8]) -> Result<usize, LimitRefusal>
    ensures { result ≡ admitted (length text.now) }
{
    if text.len() > MOST_BYTES {
        return Err(LimitRefusal::TooLong);
    }
    Ok(text.len())
}

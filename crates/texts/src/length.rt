ghost use Rattle.std.specs.Prelude.{◌≡◌, ◌<◌, ◌≤◌, length, MatchResult};
ghost use Rattle.faults.specs.declared.Cause.TheVariants.{Whole};
ghost use Rattle.faults.specs.declared.TextWrong.TheVariants.{TooLong};
ghost use Rattle.faults.specs.Faults.{fault_in};

use faults::{Text, TextFault, TextWrong};

// The most bytes that a text may have.
pub const MOST_BYTES: usize = 65535;

// Refuses a text that is too long.
pub fn check_length(which: Text, text: &[u8]) -> Result<(), TextFault>
    ensures { MatchResult result (λ _. length text.now ≤ 65535) (λ f. (65535 < length text.now) × (f ≡ fault_in which (Whole TooLong))) }
{
    if text.len() > MOST_BYTES {
        return Err(which.fault(TextWrong::TooLong));
    }
    Ok(())
}

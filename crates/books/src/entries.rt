ghost use Rattle.std.specs.Prelude.{◌≡◌, ◌≤◌};
ghost use Rattle.faults.specs.declared.Text.TheVariants.{Book};

use crate::line::Progress;
use texts::reader::Reader;

mod steps;

// What the lines of a book tell, one entry after the other. It is no `Iterator`: a loop over it also asks what was told so
// far, and `next` is left by `?`.
#[derive(Drop)]
pub(crate) struct Entries<'a> {
    reader: Reader<'a>,
    progress: Progress,
    ghost book: { reader.which ≡ Book },
    ghost kinds: { progress.told.places ≤ progress.room.kinds },
    ghost legs: { progress.told.legs ≤ progress.room.legs },
}

ghost use Rattle.std.specs.Prelude.{◌≡◌};
ghost use Rattle.books.specs.Books.{counts as countsOf, all_told};
ghost use Rattle.books.specs.Entries.{left, EntryStep};

use crate::entries::Entries;
use crate::line::{Counts, Entry, Progress, Room};
use faults::{LineFault, Text};
use texts::reader::Reader;

impl<'a> Entries<'a> {
    // The entries of a whole text.
    pub(crate) fn new(text: &'a [u8], room: Room) -> Entries<'a>
        ensures { (left result ≡ all_told room text.now) × (result.progress.told ≡ countsOf 0 0) × (result.progress.room ≡ room) }
    {
        let told = Counts { places: 0, legs: 0 };
        Entries {
            reader: Reader::new(Text::Book, text),
            progress: Progress { told, room },
        }
    }

    // How much was told so far.
    pub(crate) fn told(&self) -> Counts
        ensures { result ≡ self.now.progress.told }
    {
        self.progress.told
    }

    // The next entry, or none past the last line. Inlined, since both passes call it for every line.
    #[inline(always)]
    pub(crate) fn next(&mut self) -> Result<Option<Entry>, LineFault>
        ensures { EntryStep self.old self.new result }
    {
        if !self.reader.next_line()? {
            return Ok(None);
        }
        let entry = self.progress.read_line(&mut self.reader)?;
        self.progress = self.progress.after(entry);
        Ok(Some(entry))
    }
}

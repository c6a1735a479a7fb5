ghost use Rattle.std.specs.Prelude.{◌≡◌, ◌≤◌, length, IfOk, MatchResult};
ghost use Rattle.texts.specs.Rows.{state_after};
ghost use Rattle.books.specs.Sensible.{Sensible};
ghost use Rattle.books.specs.Books.{counts as countsOf, book_lines, all_told, book_of, finished, read_book, room_in, tally, over};

use crate::entries::Entries;
use crate::line::{Counts, Entry, Room};
use faults::{LineFault, Text, TextFault};
use streets::legs::LegRecord;
use streets::list::{MOST_PLACES, MOST_RECORDS};
use texts::length::check_length;

// The first pass: how much the lines tell, or the first refused line's fault. Nothing is written. Each pass makes its `Entries`
// of the text and the room, so these are handed on as two.
fn judge(text: &[u8], room: Room) -> Result<Counts, LineFault>
    ensures within { IfOk result (λ c. (c.places ≤ room.kinds) × (c.legs ≤ room.legs)) }
    ensures value { result ≡ state_after (book_lines room) (countsOf 0 0) (all_told room text.now) }
{
    let mut entries = Entries::new(text, room);
    while entries.next()?.is_some() {}
    Ok(entries.told())
}

// The first pass over a whole text, which must not be too long.
#[tactic(auto, using(crate::proofs::Saying::book_refused, crate::proofs::Keeping::book_sensible, crate::proofs::Passes::tallied))]
fn judge_book(text: &[u8], room: Room) -> Result<Counts, TextFault>
    ensures within { IfOk result (λ c. (c.places ≤ room.kinds) × (c.legs ≤ room.legs)) }
    ensures value { result ≡ tally (read_book room text.now) }
    ensures sensible { room.kinds ≤ 64 → room.legs ≤ 4096 → IfOk (read_book room text.now) Sensible }
{
    check_length(Text::Book, text)?;
    Ok(judge(text, room)?)
}

// The second pass, over a text that the first accepted: what it tells is written to the fronts of the lists.
fn fill(text: &[u8], room: Room, kinds: &mut [u8], legs: &mut [LegRecord]) -> Result<(), LineFault>
    requires { (room.kinds ≤ length kinds.old) × (room.legs ≤ length legs.old) }
    ensures value { result ≡ finished (all_told room text.now) }
    ensures written { IfOk (book_of (all_told room text.now)) (λ b. (kinds.new ≡ over b.kinds kinds.old) × (legs.new ≡ over b.legs legs.old)) }
{
    let mut entries = Entries::new(text, room);
    while let Some(entry) = entries.next()? {
        let told = entries.told();
        match entry {
            Entry::Place { kind } => kinds[told.places - 1] = kind,
            Entry::Leg(leg) => legs[told.legs - 1] = leg,
        }
    }
    Ok(())
}

// Reads a street book. The kinds of the places go to the front of `kinds` and the legs to the front of `legs`; a
// refused text has written nothing. The lists are the caller's, kinds as bytes and legs as records: a rule of the project.
pub fn read_book(text: &[u8], kinds: &mut [u8], legs: &mut [LegRecord]) -> Result<Counts, TextFault>
    ensures value { result ≡ tally (read_book (room_in (length kinds.old) (length legs.old)) text.now) }
    ensures sensible { IfOk (read_book (room_in (length kinds.old) (length legs.old)) text.now) Sensible }
    ensures within { IfOk result (λ c. (c.places ≤ 64) × (c.places ≤ length kinds.old) × (c.legs ≤ length legs.old)) }
    ensures written { MatchResult (read_book (room_in (length kinds.old) (length legs.old)) text.now) (λ b. (kinds.new ≡ over b.kinds kinds.old) × (legs.new ≡ over b.legs legs.old)) (λ _. (kinds.new ≡ kinds.old) × (legs.new ≡ legs.old)) }
{
    let room = Room {
        kinds: kinds.len().min(MOST_PLACES),
        legs: legs.len().min(MOST_RECORDS),
    };
    let counts = judge_book(text, room)?;
    fill(text, room, kinds, legs)?;
    Ok(counts)
}

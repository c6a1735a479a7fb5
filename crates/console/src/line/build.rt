ghost use Rattle.std.specs.Prelude.{◌≡◌, ◌+◌, ◌≤◌, [], ◌++◌, length, IfOk, MatchResult};
ghost use Rattle.books.specs.Books.{over};
ghost use Rattle.console.specs.Lines.{shown, number_of, printed};

use super::Line;
use arrayvec::ArrayString;
use itoa::{Buffer, Integer};

// The room that a caller gives for a line.
pub const LINE_ROOM: usize = 96;

// Why a line is not written.
#[derive(Clone, Copy, Debug, PartialEq, Eq)]
pub enum LineRefusal {
    // fewer than 96 bytes
    NoRoom = 50,
}

impl LineRefusal {
    // The number that stands for the refusal, with no trait, as for `LimitRefusal`.
    pub fn number(self) -> u8
        ensures { result ≡ number_of self }
    {
        self as u8
    }
}

impl Line {
    // An empty line.
    pub fn new() -> Line
        ensures { shown result ≡ [] }
    {
        Line {
            text: ArrayString::new(),
        }
    }

    // Some text more.
    // Not by `write!`, which was tried: nothing is promised of a write that fails, and a line's only refusal is 50.
    pub(crate) fn text(mut self, text: &str) -> Line
        requires { length (shown self) + length text.now ≤ 96 }
        ensures { shown result ≡ shown self ++ text.now }
    {
        self.text.push_str(text);
        self
    }

    // A number, which takes no more digits than the greatest of its type.
    pub(crate) fn number<I: Integer>(self, n: I) -> Line
        requires { length (shown self) + I.MAX_STR_LEN ≤ 96 }
        ensures value { shown result ≡ shown self ++ I.text n }
        ensures few { length (shown result) ≤ length (shown self) + I.MAX_STR_LEN }
    {
        self.text(Buffer::new().format(n))
    }

    // Writes the line to the front of the caller's bytes and tells its length.
    pub fn write(self, out: &mut [u8]) -> Result<usize, LineRefusal>
        ensures value { result ≡ printed (length out.old) (shown self) }
        ensures written { MatchResult result (λ _. out.new ≡ over (shown self) out.old) (λ _. out.new ≡ out.old) }
        ensures within { IfOk result (λ n. n ≤ 96) }
    {
        if out.len() < LINE_ROOM {
            return Err(LineRefusal::NoRoom);
        }
        let text = self.text.as_bytes();
        out[..text.len()].copy_from_slice(text);
        Ok(text.len())
    }
}

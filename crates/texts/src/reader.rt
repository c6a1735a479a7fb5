ghost use Rattle.std.specs.Prelude.{◌+◌, ◌≤◌, length};
ghost use Rattle.std.specs.Option.{ForSome};

use faults::Text;

mod steps;

// A field as it is handed out: that part of the text, never a copy, with where it starts, by the cases word, dash and
// number. This is a rule of the project, so no struct has the two parts that the cases share.
#[derive(Clone, Copy, Debug, PartialEq, Eq)]
pub enum Token<'a> {
    Word { part: &'a [u8], start: usize },
    Dash { part: &'a [u8], start: usize },
    Number { part: &'a [u8], start: usize },
}

// A reader over a text. It steps from line to line, and in the line at hand from field to field. It is no `Iterator`: a line
// is no value, and a field is asked for as what it is to be, a letter, a number or a dash.
#[derive(Drop)]
pub struct Reader<'a> {
    text: &'a [u8],
    which: Text,
    // where the next line starts
    next: usize,
    // where the next field of the line at hand starts, if one is left; a place and no slice, since a field says where it
    // starts
    pos: Option<usize>,
    // where the line at hand ends
    end: usize,
    // the number of the line at hand, and of its field that was handed out last
    line: usize,
    field: usize,
    ghost within: { next ≤ length text.now },
    ghost ended: { end ≤ length text.now },
    ghost counted: { line ≤ next },
    ghost inside: { ForSome pos (λ p. (field ≤ p) × (p ≤ end)) },
    ghost handed: { field ≤ end + 1 },
}

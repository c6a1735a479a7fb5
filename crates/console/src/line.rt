ghost use Rattle.std.specs.Prelude.{◌≤◌, length};

use arrayvec::ArrayString;
use build::LINE_ROOM;

pub mod build;

// A line that the console prints, as it is put together: at most 96 bytes.
#[derive(Clone, Copy)]
pub struct Line {
    text: ArrayString<LINE_ROOM>,
    ghost few: { length text.bytes ≤ 96 },
}

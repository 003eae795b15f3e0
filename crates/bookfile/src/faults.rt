// All malformed lines of a text, for who mends it.
ghost use Rattle.std.specs.Prelude.{None, slice_index_or};
ghost use Rattle.bookfile.specs.Files.{FirstTold};

use crate::file::read_line;
use crate::line::Line;
use crate::malformed::Malformed;
use crate::table::Table;

/// The most malformed lines that are told.
pub const MOST_FAULTS: usize = 10;

/// A malformed line, from 1, and its first fault.
#[derive(Clone, Copy, Debug)]
pub struct LineFault {
    pub line: usize,
    pub what: Malformed,
}

/// The first malformed lines of a text, up to ten: of them the first is the one that `read` tells, with its fault. A malformed line leaves nothing behind, so that each other
/// one has its fault by itself, or by what the well-formed lines before it put on the table.
pub fn faults(text: &str) -> [Option<LineFault>; MOST_FAULTS]
    ensures first { FirstTold text.now (slice_index_or result 0 None) }
{
    let mut found = [None; MOST_FAULTS];
    let mut count = 0;
    let mut table = Table::new();
    let mut said = Line::new();
    for (i, row) in text.lines().enumerate() {
        let before = table;
        if let Err(what) = read_line(&mut table, &mut said, row) {
            table = before;
            if count >= MOST_FAULTS {
                return found;
            }
            found[count] = Some(LineFault { line: i + 1, what });
            count += 1;
        }
    }
    found
}

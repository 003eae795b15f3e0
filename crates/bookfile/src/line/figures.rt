// The figures of a line, as the numbers that they are.
ghost use Rattle.std.specs.Prelude.{◌≡◌, None, slice_index_or};
ghost use Rattle.bookfile.specs.Numbers.{whole_of, byte_at, change_of};

use super::Line;
use crate::numbers::{change, whole};

impl Line {
    /// A figure that is a whole number; 0 where it is not given.
    pub(crate) fn whole(&self, i: usize) -> u64
        ensures { result ≡ whole_of (slice_index_or self.now.figures i None) }
    {
        whole(self.figures.get(i).copied().flatten())
    }

    /// A figure that is a whole number of 8 bits, and 255 where it is more; 0 where it is not given.
    pub(crate) fn byte(&self, i: usize) -> u8
        ensures { result ≡ byte_at self.now.figures i }
    {
        self.whole(i).min(255) as u8
    }

    /// A figure that is a change; 0 where it is not given.
    pub(crate) fn change(&self, i: usize) -> i64
        ensures { result ≡ change_of (slice_index_or self.now.figures i None) }
    {
        change(self.figures.get(i).copied().flatten())
    }
}

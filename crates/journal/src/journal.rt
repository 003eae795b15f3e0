// The journal that a book writes: what it holds, and how much it can hold.
ghost use Rattle.std.specs.Prelude.{◌≡◌, ℕ, ◌≤◌, List, length};
ghost use Rattle.journal.specs.declared.entry.Entry.{Entry};
ghost use Rattle.journal.specs.Appending.{append_answer, appended};
ghost use Rattle.std.specs.List.{slice_get};

use crate::entry::Entry;
use units::refusal::Refusal;

/// The most entries of a journal.
pub const MOST_ENTRIES: usize = 1_048_576;

/// A list of entries that only grows, up to a capacity that stays.
pub trait Journal {
    // The entries, the first first.
    ghost entries: { Self → List Entry };

    // How many entries it can hold.
    ghost capacity: { Self → ℕ };

    ghost bounded: { (j : Self) → length (entries j) ≤ capacity j };

    ghost small: { (j : Self) → capacity j ≤ 1048576 };

    /// Writes an entry behind the last one, and leaves the rest; where no room is left it does nothing, and refuses by 16 with its length.
    fn append(&mut self, e: Entry) -> Result<(), Refusal>
        ensures answer { result ≡ append_answer (capacity self.old) (entries self.old) }
        ensures list { entries self.new ≡ appended (capacity self.old) (entries self.old) e }
        ensures stays { capacity self.new ≡ capacity self.old };

    /// How many entries it holds.
    fn len(&self) -> usize
        ensures { result ≡ length (entries self.now) };

    /// How many entries it can hold.
    fn capacity(&self) -> usize
        ensures { result ≡ capacity self.now };

    /// What it holds at a place, counted from 0; nothing behind its last entry.
    fn get(&self, place: usize) -> Option<Entry>
        ensures { result ≡ slice_get (entries self.now) place };
}

// A journal that needs no memory of its caller: it has room for 256 entries.
ghost use Rattle.std.specs.Prelude.{◌≡◌, ◌≤◌, [], length};
ghost use Rattle.journal.specs.Bounds.{capacity_small};

use crate::entry::Entry;
use crate::journal::Journal;
use arrayvec::ArrayVec;
use units::refusal::{Reason, Refusal};

/// A journal whose 256 places lie in the value itself.
#[derive(Debug, Drop)]
pub struct OwnJournal {
    entries: ArrayVec<Entry, 256>,
    ghost within: { length entries.items ≤ 256 },
}

impl OwnJournal {
    /// An empty journal.
    pub fn new() -> OwnJournal
        ensures empty { ⟦<OwnJournal as Journal>⟧.entries result ≡ [] }
        ensures capacity { ⟦<OwnJournal as Journal>⟧.capacity result ≡ 256 }
    {
        OwnJournal {
            entries: ArrayVec::new(),
        }
    }
}

impl Journal for OwnJournal {
    ghost entries = { λ j. j.entries.items };

    ghost capacity = { λ _. 256 };

    ghost bounded = { λ j. j.within };

    ghost small = { λ _. capacity_small 256 };

    fn append(&mut self, e: Entry) -> Result<(), Refusal> {
        let pushed = self.entries.try_push(e);
        pushed.map_err(|_| Reason::JournalFull.at(self.len() as u64))
    }

    fn len(&self) -> usize {
        self.entries.len()
    }

    fn capacity(&self) -> usize {
        self.entries.capacity()
    }

    fn get(&self, place: usize) -> Option<Entry> {
        self.entries.get(place).copied()
    }
}

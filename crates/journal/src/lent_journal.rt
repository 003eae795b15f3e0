// A journal in memory that a caller lends; of a longer list it leaves what lies behind place 1,048,575 alone.
ghost use Rattle.std.specs.Prelude.{◌≡◌, ◌≤◌, min, [], length, take, drop};
ghost use Rattle.journal.specs.Appending.{append_answer, appended};
ghost use Rattle.journal.specs.Bounds.{taken_bounded};

use crate::entry::Entry;
use crate::journal::{Journal, MOST_ENTRIES};
use units::refusal::{Reason, Refusal};

/// A journal whose entries lie in memory of the caller.
#[derive(Debug, Drop)]
pub struct LentJournal<'a> {
    places: &'a mut [Entry],
    // A count beside the list, since the list is memory that the caller lends.
    used: usize,
    ghost within: { used ≤ length places.now },
    ghost small: { length places.now ≤ 1048576 },
}

impl<'a> LentJournal<'a> {
    /// An empty journal: what stands in `places` counts for nothing.
    pub fn new(places: &'a mut [Entry]) -> LentJournal<'a>
        ensures empty { ⟦<LentJournal<'a> as Journal>⟧.entries result ≡ [] }
        ensures capacity { ⟦<LentJournal<'a> as Journal>⟧.capacity result ≡ min (length places.old) 1048576 }
    {
        let capacity = places.len().min(MOST_ENTRIES);
        LentJournal {
            places: &mut places[..capacity],
            used: 0,
        }
    }
}

impl<'a> Journal for LentJournal<'a> {
    ghost entries = { λ j. take j.used j.places.now };

    ghost capacity = { λ j. length j.places.now };

    ghost bounded = { λ j. taken_bounded j.used (length j.places.now) j.places.now j.within };

    ghost small = { λ j. j.small };

    // The trait's three clauses, in whose place these stand, and that the places after the entries stay.
    fn append(&mut self, e: Entry) -> Result<(), Refusal>
        ensures answer { result ≡ append_answer (length self.old.places.now) (take self.old.used self.old.places.now) }
        ensures list { take self.new.used self.new.places.now
            ≡ appended (length self.old.places.now) (take self.old.used self.old.places.now) e }
        ensures stays { length self.new.places.now ≡ length self.old.places.now }
        ensures others { drop self.new.used self.new.places.now ≡ drop self.new.used self.old.places.now }
    {
        let len = self.used;
        if len == self.places.len() {
            return Err(Reason::JournalFull.at(len as u64));
        }
        self.places[len] = e;
        self.used += 1;
        Ok(())
    }

    fn len(&self) -> usize {
        self.used
    }

    fn capacity(&self) -> usize {
        self.places.len()
    }

    fn get(&self, place: usize) -> Option<Entry> {
        self.places[..self.used].get(place).copied()
    }
}

// An entry of the journal.
ghost use Rattle.std.specs.Prelude.{◌≡◌};
ghost use Rattle.journal.specs.Kinds.{kind_number};

use units::amounts::Cents;

/// What an entry records.
#[derive(Clone, Copy, Debug, Default, PartialEq, Eq)]
pub enum Kind {
    #[default]
    Bill = 1,
    Advance = 2,
    Balance = 3,
}

impl Kind {
    /// The number that stands for the kind.
    pub fn number(self) -> u8
        ensures { result ≡ kind_number self }
    {
        self as u8
    }
}

/// A field for which a kind of entry has no use is 0. The default, a bill of nothing, is what an unused place of an `ArrayVec` holds.
#[derive(Clone, Copy, Debug, Default, PartialEq, Eq)]
pub struct Entry {
    pub kind: Kind,
    pub company: u8,
    /// Of a bill the point, of an advance the number of the instalment.
    pub place: u64,
    /// The change of volume that a bill brings.
    pub volume: i64,
    /// The change of days that a bill brings.
    pub days: i64,
    /// Lines 1 to 4 of a bill, the advance, or the balance.
    pub amount: Cents,
    /// The change of line 6.
    pub ug1: Cents,
    /// The change of line 5.
    pub other: Cents,
}

// A locality within its limits.
ghost use Rattle.std.specs.Prelude.{◌≡◌, true, Some};
ghost use Rattle.tables.specs.Filings.{locality_stands, Held};

use crate::rows::{LocalityRow, Row};
use crate::standing::locality_stands;
use crate::state::State;

#[derive(Clone, Copy, Debug, PartialEq, Eq)]
pub struct Locality {
    pub(crate) row: LocalityRow,
    ghost stands: { locality_stands row ≡ true },
}

// A locality is made from a row that stands, and from no other.
impl Row for LocalityRow {
    ghost use Rattle.tables.specs.Records.{locality_of};
    ghost use Rattle.tables.specs.Blank.{no_locality, past_table, past_table_blank};

    type Record = Locality;

    ghost stands = { locality_stands };

    ghost record_of = { locality_of };

    ghost row_of = { λ l. l.row };

    ghost past = { past_table };

    ghost blank = { no_locality };

    ghost past_is_blank = { past_table_blank };

    ghost records_stand = { λ l. l.stands };

    // Not inlined, a `None` of 368 bytes is cleared for each point.
    #[inline(always)]
    fn record(&self) -> Option<Locality> {
        if locality_stands(self) {
            Some(Locality { row: *self })
        } else {
            None
        }
    }

    fn blank() -> LocalityRow {
        LocalityRow::default()
    }
}

impl Locality {
    ghost use Rattle.tables.specs.Records.{locality_of};
    ghost use Rattle.tables.specs.States.{state_number};

    /// The row to write for it. It reads back as this locality.
    pub fn row(&self) -> LocalityRow
        ensures value { result ≡ self.now.row }
        ensures back { locality_of result ≡ Some self.now }
        ensures held { Held result }
    {
        self.row
    }

    /// The row lent, for callers that read some of its figures: a copy of it is 368 bytes.
    pub fn as_row(&self) -> &LocalityRow
        ensures value { result.now ≡ self.now.row }
        ensures held { Held result.now }
    {
        &self.row
    }

    pub fn state(&self) -> State
        ensures { state_number result ≡ self.now.row.state }
    {
        // Not `TryFrom`: the state of a locality is 1 or 2, so this cannot fail.
        if self.row().state == 1 {
            State::Regime
        } else {
            State::StartUp
        }
    }
}

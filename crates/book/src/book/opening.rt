// Opening a book.
ghost use Rattle.std.specs.Prelude.{◌≡◌};
ghost use Rattle.tables.specs.Blank.{no_locality, no_point};
ghost use Rattle.book.specs.States.{state};
ghost use Rattle.booklaws.specs.Openings.{unused, opening, opened_by, blanked};

use super::Book;
use journal::journal::Journal;
use management::rule::Management;
use opened::record::Opened;
use orders::register::Register;
use tables::blank::blank;
use tables::lengths::tables_fit;
use tables::rows::{LocalityRow, PointRow};
use tariff::table::Tariff;
use units::refusal::{Reason, Refusal};

// The greatest number of a book.
const MOST_NUMBER: u64 = 65_535;

// The most cents of the account's opening sum, on either side of 0.
const MOST_SUM: u64 = 1_000_000_000_000;

impl<J: Journal, M: Management> Book<J, M> {
    /// Whether the book can still be opened: it is not open, and its journal is empty.
    pub fn unused(&self) -> Result<(), Refusal>
        ensures { result ≡ unused (state J.Journal M.Management self.now) }
    {
        if self.opened.is_some() || self.journal.len() != 0 {
            return Err(Reason::BookInUse.at(0));
        }
        Ok(())
    }

    /// Opens the book: it keeps a copy of the tariff table, and blanks every row of both lent tables.
    pub fn open(
        &mut self,
        tariff: &Tariff,
        number: u64,
        sum: i64,
        localities: &mut [LocalityRow],
        points: &mut [PointRow],
    ) -> Result<(), Refusal>
        ensures answer { result ≡ opening (state J.Journal M.Management self.old) number sum localities.old points.old }
        ensures after { state J.Journal M.Management self.new
            ≡ opened_by (state J.Journal M.Management self.old) tariff.now number sum result }
        ensures localities { localities.new ≡ blanked no_locality localities.old result }
        ensures points { points.new ≡ blanked no_point points.old result }
    {
        self.unused()?;
        if !tables_fit(localities, points) {
            return Err(Reason::PastTable.at(0));
        }
        if number > MOST_NUMBER {
            return Err(Reason::FigureLimit.at(1));
        }
        if sum.unsigned_abs() > MOST_SUM {
            return Err(Reason::FigureLimit.at(2));
        }
        self.opened = Some(Opened {
            tariff: *tariff,
            sum,
            register: Register::new(number),
        });
        blank(localities);
        blank(points);
        Ok(())
    }
}

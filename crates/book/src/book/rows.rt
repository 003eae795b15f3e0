// The calls that write a row of a lent table: filing a locality, enrolling a point and billing it.
ghost use Rattle.std.specs.Prelude.{◌≡◌, slice_index_or};
ghost use Rattle.tables.specs.Blank.{no_point};
ghost use Rattle.tables.specs.PointRows.{billed_row};
ghost use Rattle.book.specs.States.{state};
ghost use Rattle.booklaws.specs.Tables.{written};
ghost use Rattle.booklaws.specs.Rows.{filing, enrolling, bill_answer, after_bill};

use super::Book;
use crate::on_record::on_record;
use booklaws::entries::bill_entry;
use calls::enrolling::Enrolment;
use calls::filing::filing;
use calls::records::Records;
use journal::journal::Journal;
use management::rule::Management;
use tables::rows::{LocalityRow, PointRow};
use tariff::bill::Bill;
use tariff::supply::Change;
use units::refusal::Refusal;

impl<J: Journal, M: Management> Book<J, M> {
    /// Files a locality at a place. One on record gets new figures, but keeps its company, state and area.
    pub fn file(
        &self,
        localities: &mut [LocalityRow],
        place: u64,
        row: LocalityRow,
    ) -> Result<LocalityRow, Refusal>
        ensures answer { result ≡ filing (state J.Journal M.Management self.now) localities.old place row }
        ensures after { localities.new ≡ written (λ l. l) localities.old place result }
    {
        let opened = on_record(&self.opened)?;
        let row = filing(&opened.register, localities, place, row)?;
        localities[place as usize] = row;
        Ok(row)
    }

    /// Enrols a point at a place, in a locality.
    pub fn enrol(
        &self,
        localities: &[LocalityRow],
        points: &mut [PointRow],
        point: u64,
        enrolment: Enrolment,
    ) -> Result<PointRow, Refusal>
        ensures answer { result
            ≡ enrolling (state J.Journal M.Management self.now) localities.now points.old point enrolment }
        ensures after { points.new ≡ written (λ p. p) points.old point result }
    {
        let opened = on_record(&self.opened)?;
        let records = Records {
            register: &opened.register,
            localities,
            points: &*points,
        };
        let row = records.enrolling(point, enrolment)?;
        points[point as usize] = row;
        Ok(row)
    }

    /// Bills a point: its volume and days change, and by the tariff its line amounts. A bill is an entry of the journal.
    pub fn bill(
        &mut self,
        localities: &[LocalityRow],
        points: &mut [PointRow],
        point: u64,
        change: Change,
    ) -> Result<Bill, Refusal>
        ensures answer { result
            ≡ bill_answer (state J.Journal M.Management self.old) localities.now points.old point change }
        ensures after { state J.Journal M.Management self.new
            ≡ after_bill (state J.Journal M.Management self.old) localities.now points.old point change }
        ensures points { points.new
            ≡ written (billed_row (slice_index_or points.old point no_point)) points.old point result }
    {
        let opened = on_record(&self.opened)?;
        let records = Records {
            register: &opened.register,
            localities,
            points: &*points,
        };
        let (charged, row) = records.billing(&opened.tariff, point, change)?;
        self.journal.append(bill_entry(&charged, point, change))?;
        points[point as usize] = row;
        Ok(charged.bill)
    }
}

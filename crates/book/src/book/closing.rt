// Closing a company's year, and reopening it.
ghost use Rattle.std.specs.Prelude.{◌≡◌};
ghost use Rattle.book.specs.States.{state};
ghost use Rattle.booklaws.specs.Closings.{close_answer, after_close, reopen_answer, after_reopen};

use super::Book;
use crate::on_record::on_record_mut;
use booklaws::entries::balance_entry;
use journal::journal::Journal;
use management::rule::Management;
use tables::rows::{LocalityRow, PointRow};
use units::amounts::Cents;
use units::refusal::Refusal;

impl<J: Journal, M: Management> Book<J, M> {
    /// Closes a company's year: books the balance that is due, and answers it.
    pub fn close(
        &mut self,
        localities: &[LocalityRow],
        points: &[PointRow],
        company: u64,
    ) -> Result<Cents, Refusal>
        ensures answer { result
            ≡ close_answer (state J.Journal M.Management self.old) localities.now points.now company }
        ensures after { state J.Journal M.Management self.new
            ≡ after_close (state J.Journal M.Management self.old) localities.now points.now company }
    {
        let opened = on_record_mut(&mut self.opened)?;
        let settled = opened.closing(&self.rule, localities, points, company)?;
        let entry = balance_entry(company as u8, settled.due);
        self.journal.append(entry)?;
        opened.register.close(company, settled.balances)?;
        Ok(settled.due)
    }

    /// Reopens a closed company.
    pub fn reopen(&mut self, company: u64) -> Result<(), Refusal>
        ensures answer { result ≡ reopen_answer (state J.Journal M.Management self.old) company }
        ensures after { state J.Journal M.Management self.new
            ≡ after_reopen (state J.Journal M.Management self.old) company }
    {
        let opened = on_record_mut(&mut self.opened)?;
        opened.register.reopen(company)
    }
}

// The question that lists the closed companies.
ghost use Rattle.book.specs.States.{state};
ghost use Rattle.booklaws.specs.ClosedLists.{Listed};

use super::Book;
use crate::on_record::on_record;
use journal::journal::Journal;
use management::rule::Management;
use units::refusal::Refusal;

impl<J: Journal, M: Management> Book<J, M> {
    /// Enters the closed companies into the list, none twice, from its first place on, and answers how many they are. What stands further on is left.
    /// A list of fewer than sixteen places is refused by 4.
    pub fn closed_companies(&self, list: &mut [u64]) -> Result<usize, Refusal>
        ensures { Listed (state J.Journal M.Management self.now) list.old list.new result }
    {
        let opened = on_record(&self.opened)?;
        opened.register.closed(list)
    }
}

// Registering a company.
ghost use Rattle.std.specs.Prelude.{◌≡◌};
ghost use Rattle.book.specs.States.{state};
ghost use Rattle.booklaws.specs.Companies.{register_answer, after_register};

use super::Book;
use crate::on_record::on_record_mut;
use company::figures::TermsFigures;
use company::terms::Terms;
use journal::journal::Journal;
use management::rule::Management;
use units::refusal::Refusal;

impl<J: Journal, M: Management> Book<J, M> {
    /// Registers a company at a place.
    pub fn register(&mut self, company: u64, figures: TermsFigures) -> Result<Terms, Refusal>
        ensures answer { result ≡ register_answer (state J.Journal M.Management self.old) company figures }
        ensures after { state J.Journal M.Management self.new
            ≡ after_register (state J.Journal M.Management self.old) company figures }
    {
        let opened = on_record_mut(&mut self.opened)?;
        opened.register.register(company, figures)
    }
}

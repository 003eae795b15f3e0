// Any call, by its plain numbers.
ghost use Rattle.std.specs.Prelude.{◌≡◌};
ghost use Rattle.book.specs.States.{state};
ghost use Rattle.booklaws.specs.declared.answer.Granted.TheVariants.{Cancelled, Sent, Paid, Bounced};
ghost use Rattle.orders.specs.Payments.{amount_paid};
ghost use Rattle.booklaws.specs.Companies.{number_of, draw_decision, cancel_decision, send_decision, bounce_decision, confirm_decision, after_draw, after_cancel, after_send, after_bounce, after_confirm};
ghost use Rattle.booklaws.specs.Calls.{grants, filed_row, drawn_answer, answer_to, answer_asked, after_call, with_tables};

use super::Book;
use crate::on_record::on_record_mut;
use booklaws::answer::Granted;
use calls::call::{Call, Question};
use journal::journal::Journal;
use management::rule::Management;
use orders::order::Order;
use tables::rows::{LocalityRow, PointRow, Row};
use units::refusal::Refusal;

// The row of a filing; past the end of the list a blank one.
fn filed_row(filings: &[LocalityRow], filing: usize) -> LocalityRow
    ensures { result ≡ filed_row filings.now filing }
{
    filings.get(filing).copied().unwrap_or(LocalityRow::blank())
}

impl<J: Journal, M: Management> Book<J, M> {
    // Answers a question.
    fn answer(
        &self,
        localities: &[LocalityRow],
        points: &[PointRow],
        question: Question,
    ) -> Result<Granted, Refusal>
        ensures { result
            ≡ answer_asked (with_tables (state J.Journal M.Management self.now) localities.now points.now) question }
    {
        match question {
            Question::CapitalCost { locality, service } => self
                .capital_cost(localities, locality, service)
                .map(|cents| Granted::CapitalCost(cents)),
            Question::UnitComponent { locality, service } => self
                .unit_component(localities, locality, service)
                .map(|component| Granted::UnitComponent(component)),
            Question::Served { company } => self.served(localities, points, company).map(
                |served| {
                    Granted::Served {
                        regime: served.regime,
                        startup: served.startup,
                    }
                },
            ),
            Question::Revenue { company } => self
                .revenue(localities, points, company)
                .map(|revenue| Granted::Revenue(revenue)),
            Question::BalanceDue { company } => self
                .balance_due(localities, points, company)
                .map(|cents| Granted::BalanceDue(cents)),
            Question::Account => self.account(points).map(|cents| Granted::Account(cents)),
        }
    }

    fn drawn(&mut self, company: u64) -> Result<Granted, Refusal>
        ensures answer { result
            ≡ grants (draw_decision (state J.Journal M.Management self.old) company)
            (λ d. drawn_answer (number_of self.old.opened) company d.1) }
        ensures after { state J.Journal M.Management self.new
            ≡ after_draw (state J.Journal M.Management self.old) company }
    {
        let opened = on_record_mut(&mut self.opened)?;
        let order = opened.register.draw_numbers(company)?;
        Ok(Granted::Drawn(order))
    }

    fn cancelled(&mut self, order: Order) -> Result<Granted, Refusal>
        ensures answer { result
            ≡ grants (cancel_decision (state J.Journal M.Management self.old) order) (λ d. Cancelled) }
        ensures after { state J.Journal M.Management self.new
            ≡ after_cancel (state J.Journal M.Management self.old) order }
    {
        let opened = on_record_mut(&mut self.opened)?;
        opened.register.cancel_numbers(order)?;
        Ok(Granted::Cancelled)
    }

    fn sent(&mut self, order: Order) -> Result<Granted, Refusal>
        ensures answer { result ≡ grants (send_decision (state J.Journal M.Management self.old) order) (λ d. Sent) }
        ensures after { state J.Journal M.Management self.new
            ≡ after_send (state J.Journal M.Management self.old) order }
    {
        let opened = on_record_mut(&mut self.opened)?;
        opened.register.send_numbers(order)?;
        Ok(Granted::Sent)
    }

    fn paid(&mut self, order: Order) -> Result<Granted, Refusal>
        ensures answer { result
            ≡ grants (confirm_decision (state J.Journal M.Management self.old) order) (λ d. Paid (amount_paid d)) }
        ensures after { state J.Journal M.Management self.new
            ≡ after_confirm (state J.Journal M.Management self.old) order }
    {
        let opened = on_record_mut(&mut self.opened)?;
        let amount = opened.register.confirm_numbers(&mut self.journal, order)?;
        Ok(Granted::Paid(amount))
    }

    fn bounced(&mut self, order: Order) -> Result<Granted, Refusal>
        ensures answer { result
            ≡ grants (bounce_decision (state J.Journal M.Management self.old) order) (λ d. Bounced) }
        ensures after { state J.Journal M.Management self.new
            ≡ after_bounce (state J.Journal M.Management self.old) order }
    {
        let opened = on_record_mut(&mut self.opened)?;
        opened.register.bounce_numbers(order)?;
        Ok(Granted::Bounced)
    }

    /// Performs a call by its plain numbers: any order whatever may be handed in. A filing's row stands in the list of filings; past its end a
    /// blank row is filed.
    pub fn perform(
        &mut self,
        localities: &mut [LocalityRow],
        points: &mut [PointRow],
        filings: &[LocalityRow],
        call: Call,
    ) -> Result<Granted, Refusal>
        ensures answer { result
            ≡ answer_to filings.now (with_tables (state J.Journal M.Management self.old) localities.old points.old)
            call }
        ensures after { with_tables (state J.Journal M.Management self.new) localities.new points.new
            ≡ after_call filings.now (with_tables (state J.Journal M.Management self.old) localities.old points.old)
            call }
    {
        match call {
            Call::Register { company, terms } => self
                .register(company, terms)
                .map(|_| Granted::Registered),
            Call::File { locality, filing } => self
                .file(localities, locality, filed_row(filings, filing))
                .map(|_| Granted::Filed),
            Call::Enrol { point, enrolment } => self
                .enrol(localities, points, point, enrolment)
                .map(|_| Granted::Enrolled),
            Call::Bill { point, change } => self
                .bill(localities, points, point, change)
                .map(|bill| Granted::Billed(bill)),
            Call::Draw { company } => self.drawn(company),
            Call::Cancel(order) => self.cancelled(order),
            Call::Send(order) => self.sent(order),
            Call::Confirm(order) => self.paid(order),
            Call::Bounce(order) => self.bounced(order),
            Call::Close { company } => self
                .close(localities, points, company)
                .map(|cents| Granted::Closed(cents)),
            Call::Reopen { company } => self.reopen(company).map(|_| Granted::Reopened),
            Call::Ask(question) => self.answer(localities, points, question),
        }
    }
}

// What can be done with an order, in the register alone; confirming one also writes into a journal. Each call by plain numbers takes any whatever, and
// refuses by 13 what is not the order out.
ghost use Rattle.std.specs.Prelude.{◌≡◌, Ok};
ghost use Rattle.units.specs.Steps.{next};
ghost use Rattle.company.specs.declared.record.Event.TheVariants.{Cancel, Send, Bounce};
ghost use Rattle.orders.specs.Orders.{decision, draw_decision, close_decision, reopen_decision, order_decision, confirm_decision, register_after, register_settled, order_for, order_drawn, spends};
ghost use Rattle.orders.specs.Payments.{amount_paid, entries_paid};

use crate::order::{DrawnOrder, Order, Returned, SentOrder};
use crate::payment::advance_entry;
use crate::register::{Register, company_place};
use company::record::Event;
use journal::journal::Journal;
use units::amounts::Cents;
use units::refusal::{Reason, Refusal};

impl Register {
    // The company at a place takes an event, where it stands: answers the instalment that the event is about.
    fn act(&mut self, number: u64, place: u64, event: Event) -> Result<u8, Refusal>
        ensures answer { result ≡ next (decision self.old number place event) (λ d. Ok d.1) }
        ensures after { self.new ≡ register_after self.old place (decision self.old number place event) }
    {
        let index = company_place(place)?;
        match &mut self.companies[index] {
            None => Err(Reason::NothingThere.at(place)),
            Some(company) => {
                if number != self.number {
                    return Err(Reason::NotTheOrderOut.at(place));
                }
                company.act(event).map_err(|reason| reason.at(place))
            }
        }
    }

    /// Draws the order for the instalment after those that a company is paid, as plain numbers.
    pub fn draw_numbers(&mut self, company: u64) -> Result<Order, Refusal>
        ensures answer { result
            ≡ next (draw_decision self.old company) (λ d. Ok (order_for self.old.number company d)) }
        ensures after { self.new ≡ register_after self.old company (draw_decision self.old company) }
    {
        let book = self.number;
        let instalment = self.act(book, company, Event::Draw)?;
        Ok(Order {
            book,
            company,
            instalment,
        })
    }

    /// Draws the order for the instalment after those that a company is paid.
    pub fn draw(&mut self, company: u64) -> Result<DrawnOrder, Refusal>
        ensures answer { result ≡ order_drawn self.old.number company (draw_decision self.old company) }
        ensures after { self.new ≡ register_after self.old company (draw_decision self.old company) }
    {
        let order = self.draw_numbers(company)?;
        Ok(DrawnOrder { order })
    }

    /// Cancels the drawn order of these numbers.
    pub fn cancel_numbers(&mut self, order: Order) -> Result<(), Refusal>
        ensures answer { result ≡ next (order_decision self.old Cancel order) (λ d. Ok tt) }
        ensures after { self.new ≡ register_after self.old order.company (order_decision self.old Cancel order) }
    {
        self.act(order.book, order.company, Event::Cancel(order.instalment))?;
        Ok(())
    }

    /// Cancels a drawn order.
    pub fn cancel(&mut self, order: DrawnOrder) -> Result<(), Returned<DrawnOrder>>
        ensures answer { result ≡ spends order (λ d. tt) (order_decision self.old Cancel order.order) }
        ensures after { self.new
            ≡ register_after self.old order.order.company (order_decision self.old Cancel order.order) }
    {
        match self.cancel_numbers(order.order()) {
            Ok(()) => {
                let DrawnOrder { order: _ } = order;
                Ok(())
            }
            Err(refusal) => Err(Returned { order, refusal }),
        }
    }

    /// Sends the drawn order of these numbers.
    pub fn send_numbers(&mut self, order: Order) -> Result<(), Refusal>
        ensures answer { result ≡ next (order_decision self.old Send order) (λ d. Ok tt) }
        ensures after { self.new ≡ register_after self.old order.company (order_decision self.old Send order) }
    {
        self.act(order.book, order.company, Event::Send(order.instalment))?;
        Ok(())
    }

    /// Sends a drawn order.
    pub fn send(&mut self, order: DrawnOrder) -> Result<SentOrder, Returned<DrawnOrder>>
        ensures answer { result
            ≡ spends order (λ d. record { order = order.order }) (order_decision self.old Send order.order) }
        ensures after { self.new
            ≡ register_after self.old order.order.company (order_decision self.old Send order.order) }
    {
        match self.send_numbers(order.order()) {
            Ok(()) => {
                let DrawnOrder { order } = order;
                Ok(SentOrder { order })
            }
            Err(refusal) => Err(Returned { order, refusal }),
        }
    }

    /// Takes the sent order of these numbers back, unpaid.
    pub fn bounce_numbers(&mut self, order: Order) -> Result<(), Refusal>
        ensures answer { result ≡ next (order_decision self.old Bounce order) (λ d. Ok tt) }
        ensures after { self.new ≡ register_after self.old order.company (order_decision self.old Bounce order) }
    {
        self.act(order.book, order.company, Event::Bounce(order.instalment))?;
        Ok(())
    }

    /// Takes a sent order back, unpaid.
    pub fn bounce(&mut self, order: SentOrder) -> Result<(), Returned<SentOrder>>
        ensures answer { result ≡ spends order (λ d. tt) (order_decision self.old Bounce order.order) }
        ensures after { self.new
            ≡ register_after self.old order.order.company (order_decision self.old Bounce order.order) }
    {
        match self.bounce_numbers(order.order()) {
            Ok(()) => {
                let SentOrder { order: _ } = order;
                Ok(())
            }
            Err(refusal) => Err(Returned { order, refusal }),
        }
    }

    /// Confirms the sent order of these numbers: its instalment is paid, and the journal books it as an advance. Answers the amount.
    pub fn confirm_numbers<J: Journal>(
        &mut self,
        journal: &mut J,
        order: Order,
    ) -> Result<Cents, Refusal>
        ensures answer { result
            ≡ next
            (confirm_decision self.old (J.Journal.capacity journal.old) (J.Journal.entries journal.old) order)
            (λ d. Ok (amount_paid d)) }
        ensures after { self.new
            ≡ register_after self.old order.company
            (confirm_decision self.old (J.Journal.capacity journal.old) (J.Journal.entries journal.old) order) }
        ensures booked { J.Journal.entries journal.new
            ≡ entries_paid (J.Journal.entries journal.old) order.company
            (confirm_decision self.old (J.Journal.capacity journal.old) (J.Journal.entries journal.old) order) }
        ensures capacity { J.Journal.capacity journal.new ≡ J.Journal.capacity journal.old }
    {
        let event = Event::Confirm(order.instalment);
        let (company, instalment) = self.meets(order.book, order.company, event)?;
        let amount = company.terms.instalment(instalment);
        journal.append(advance_entry(order.company as u8, instalment, amount))?;
        self.act(order.book, order.company, event)?;
        Ok(amount)
    }

    /// Confirms a sent order: its instalment is paid, and the journal books it as an advance. Answers the amount.
    pub fn confirm<J: Journal>(
        &mut self,
        journal: &mut J,
        order: SentOrder,
    ) -> Result<Cents, Returned<SentOrder>>
        ensures answer { result
            ≡ spends order amount_paid
            (confirm_decision self.old (J.Journal.capacity journal.old) (J.Journal.entries journal.old) order.order) }
        ensures after { self.new
            ≡ register_after self.old order.order.company
            (confirm_decision self.old (J.Journal.capacity journal.old) (J.Journal.entries journal.old) order.order) }
        ensures booked { J.Journal.entries journal.new
            ≡ entries_paid (J.Journal.entries journal.old) order.order.company
            (confirm_decision self.old (J.Journal.capacity journal.old) (J.Journal.entries journal.old) order.order) }
        ensures capacity { J.Journal.capacity journal.new ≡ J.Journal.capacity journal.old }
    {
        match self.confirm_numbers(journal, order.order()) {
            Ok(amount) => {
                let SentOrder { order: _ } = order;
                Ok(amount)
            }
            Err(refusal) => Err(Returned { order, refusal }),
        }
    }

    /// Closes a company, whose balances come to so many cents then.
    pub fn close(&mut self, company: u64, balances: i64) -> Result<(), Refusal>
        ensures answer { result ≡ next (close_decision self.old company) (λ d. Ok tt) }
        ensures after { self.new ≡ register_settled self.old company balances (close_decision self.old company) }
    {
        let index = company_place(company)?;
        let Some(found) = &mut self.companies[index] else {
            return Err(Reason::NothingThere.at(company));
        };
        found
            .act(Event::Close)
            .map_err(|reason| reason.at(company))?;
        found.balances = balances;
        Ok(())
    }

    /// Reopens a closed company.
    pub fn reopen(&mut self, company: u64) -> Result<(), Refusal>
        ensures answer { result ≡ next (reopen_decision self.old company) (λ d. Ok tt) }
        ensures after { self.new ≡ register_after self.old company (reopen_decision self.old company) }
    {
        let number = self.number;
        self.act(number, company, Event::Reopen)?;
        Ok(())
    }
}

#[cfg(test)]
mod tests {
    use super::*;
    use company::figures::TermsFigures;
    use journal::own_journal::OwnJournal;

    // An instalment is drawn, sent and paid once, and booked as an advance.
    #[test]
    fn instalment_is_paid_once(rt: HostRuntime) {
        let mut register = Register::new(7);
        let mut journal = OwnJournal::new();
        let figures = TermsFigures {
            advance: 100_000,
            instalments: 3,
            verification: 0,
            central: 0,
            points: 100,
            density: 1,
            year: 1,
        };
        assert!(rt; register.register(4, figures).is_ok());
        let first = Order {
            book: 7,
            company: 4,
            instalment: 1,
        };
        assert_eq!(rt; register.draw_numbers(4), Ok(first));
        assert_eq!(rt; register.draw_numbers(4), Err(Reason::OrderOut.at(4)));
        assert_eq!(rt; register.send_numbers(first), Ok(()));
        assert_eq!(rt;
            register.cancel_numbers(first),
            Err(Reason::NotTheOrderOut.at(4))
        );
        assert_eq!(rt;
            register.confirm_numbers(&mut journal, first),
            Ok(Cents(33_333))
        );
        assert_eq!(rt;
            register.confirm_numbers(&mut journal, first),
            Err(Reason::NotTheOrderOut.at(4))
        );
        assert_eq!(rt; journal.len(), 1);
    }
}

// The calls on orders, which the register answers.
ghost use Rattle.std.specs.Prelude.{◌≡◌};
ghost use Rattle.units.specs.declared.refusal.Reason.TheVariants.{BookNotOpen};
ghost use Rattle.units.specs.Refusals.{refusal};
ghost use Rattle.book.specs.States.{state};
ghost use Rattle.booklaws.specs.Companies.{draw_answer, cancel_answer, send_answer, bounce_answer, confirm_answer, after_draw, after_cancel, after_send, after_bounce, after_confirm};

use super::Book;
use crate::on_record::on_record_mut;
use journal::journal::Journal;
use management::rule::Management;
use orders::order::{DrawnOrder, Returned, SentOrder};
use units::amounts::Cents;
use units::refusal::{Reason, Refusal};

// An order that a book which is not open hands back.
fn not_open<O>(order: O) -> Returned<O>
    ensures order { result.order ≡ order }
    ensures refusal { result.refusal ≡ refusal BookNotOpen 0 }
{
    Returned {
        order,
        refusal: Reason::BookNotOpen.at(0),
    }
}

impl<J: Journal, M: Management> Book<J, M> {
    /// Draws the order for the instalment after those that a company is paid.
    pub fn draw(&mut self, company: u64) -> Result<DrawnOrder, Refusal>
        ensures answer { result ≡ draw_answer (state J.Journal M.Management self.old) company }
        ensures after { state J.Journal M.Management self.new
            ≡ after_draw (state J.Journal M.Management self.old) company }
    {
        let opened = on_record_mut(&mut self.opened)?;
        opened.register.draw(company)
    }

    /// Cancels a drawn order.
    pub fn cancel(&mut self, order: DrawnOrder) -> Result<(), Returned<DrawnOrder>>
        ensures answer { result ≡ cancel_answer (state J.Journal M.Management self.old) order }
        ensures after { state J.Journal M.Management self.new
            ≡ after_cancel (state J.Journal M.Management self.old) order.order }
    {
        match &mut self.opened {
            Some(opened) => opened.register.cancel(order),
            None => Err(not_open(order)),
        }
    }

    /// Sends a drawn order.
    pub fn send(&mut self, order: DrawnOrder) -> Result<SentOrder, Returned<DrawnOrder>>
        ensures answer { result ≡ send_answer (state J.Journal M.Management self.old) order }
        ensures after { state J.Journal M.Management self.new
            ≡ after_send (state J.Journal M.Management self.old) order.order }
    {
        match &mut self.opened {
            Some(opened) => opened.register.send(order),
            None => Err(not_open(order)),
        }
    }

    /// Takes a sent order back, unpaid.
    pub fn bounce(&mut self, order: SentOrder) -> Result<(), Returned<SentOrder>>
        ensures answer { result ≡ bounce_answer (state J.Journal M.Management self.old) order }
        ensures after { state J.Journal M.Management self.new
            ≡ after_bounce (state J.Journal M.Management self.old) order.order }
    {
        match &mut self.opened {
            Some(opened) => opened.register.bounce(order),
            None => Err(not_open(order)),
        }
    }

    /// Confirms a sent order: its instalment is paid. Answers the amount.
    pub fn confirm(&mut self, order: SentOrder) -> Result<Cents, Returned<SentOrder>>
        ensures answer { result ≡ confirm_answer (state J.Journal M.Management self.old) order }
        ensures after { state J.Journal M.Management self.new
            ≡ after_confirm (state J.Journal M.Management self.old) order.order }
    {
        match &mut self.opened {
            Some(opened) => opened.register.confirm(&mut self.journal, order),
            None => Err(not_open(order)),
        }
    }
}

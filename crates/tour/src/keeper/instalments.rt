// The calls on orders: what is refused comes back, and its own book takes it back in the end.
ghost use Rattle.std.specs.Prelude.{◌≡◌, None, IfOk, IfErr, IfSome};
ghost use Rattle.tour.specs.Orders.{state_of, CanCancel, CanBounce};

use crate::keeper::Keeper;
use lines::{Call, Lines};
use orders::order::{DrawnOrder, Returned, SentOrder};

impl<'a> Keeper<'a> {
    pub fn draw(&mut self, lines: &mut Lines<'_>, company: u64) -> Option<DrawnOrder>
        ensures { IfSome result (λ drawn. CanCancel self.new.book drawn.order) }
    {
        let call = Call::new(self.at, "draw an order of company", company);
        match self.book.draw(company) {
            Ok(drawn) => {
                lines.granted(call, "instalment", drawn.order().instalment);
                Some(drawn)
            }
            Err(refusal) => {
                lines.refused(call, refusal);
                None
            }
        }
    }

    /// Draws while an order of the company is out, which is refused.
    pub(crate) fn draw_again(&mut self, lines: &mut Lines<'_>, drawn: &DrawnOrder)
        requires { CanCancel self.old.book drawn.now.order }
        ensures { state_of self.new.book ≡ state_of self.old.book }
    {
        let company = drawn.order().company;
        let refusal = self.book.draw(company).unwrap_err();
        lines.refused(
            Call::new(self.at, "draw an order of company", company),
            refusal,
        );
    }

    /// Cancels an order; a refused one comes back.
    pub fn cancel(&mut self, lines: &mut Lines<'_>, drawn: DrawnOrder) -> Option<DrawnOrder>
        ensures granted { CanCancel self.old.book drawn.order → result ≡ None }
        ensures refused { IfSome result (λ back. back ≡ drawn) }
    {
        let order = drawn.order();
        let call = Call::new(self.at, "cancel the order of company", order.company);
        match self.book.cancel(drawn) {
            Ok(()) => {
                lines.granted(call, "instalment", order.instalment);
                None
            }
            Err(Returned { order, refusal }) => {
                lines.refused(call, refusal);
                Some(order)
            }
        }
    }

    /// Sends an order; a refused one comes back.
    pub fn send(
        &mut self,
        lines: &mut Lines<'_>,
        drawn: DrawnOrder,
    ) -> Result<SentOrder, DrawnOrder>
        ensures granted { IfOk result (λ sent. CanBounce self.new.book sent.order) }
        ensures refused { IfErr result (λ back. back ≡ drawn) }
        ensures stays { IfErr result (λ back. state_of self.new.book ≡ state_of self.old.book) }
    {
        let order = drawn.order();
        let call = Call::new(self.at, "send the order of company", order.company);
        match self.book.send(drawn) {
            Ok(sent) => {
                lines.granted(call, "instalment", order.instalment);
                Ok(sent)
            }
            Err(Returned { order, refusal }) => {
                lines.refused(call, refusal);
                Err(order)
            }
        }
    }

    /// Takes a sent order back, unpaid; a refused one comes back.
    pub fn bounce(&mut self, lines: &mut Lines<'_>, sent: SentOrder) -> Option<SentOrder>
        ensures granted { CanBounce self.old.book sent.order → result ≡ None }
        ensures refused { IfSome result (λ back. back ≡ sent) }
    {
        let order = sent.order();
        let call = Call::new(self.at, "bounce the order of company", order.company);
        match self.book.bounce(sent) {
            Ok(()) => {
                lines.granted(call, "instalment", order.instalment);
                None
            }
            Err(Returned { order, refusal }) => {
                lines.refused(call, refusal);
                Some(order)
            }
        }
    }

    /// Pays an order; a refused one comes back.
    pub fn confirm(&mut self, lines: &mut Lines<'_>, sent: SentOrder) -> Option<SentOrder>
        ensures refused { IfSome result (λ back. back ≡ sent) }
        ensures stays { IfSome result (λ back. state_of self.new.book ≡ state_of self.old.book) }
    {
        let call = Call::new(
            self.at,
            "confirm the order of company",
            sent.order().company,
        );
        match self.book.confirm(sent) {
            Ok(amount) => {
                lines.granted(call, "advance", amount);
                None
            }
            Err(Returned { order, refusal }) => {
                lines.refused(call, refusal);
                Some(order)
            }
        }
    }
}

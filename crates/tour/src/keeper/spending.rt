// Orders up to their end: each is spent at its own book, whatever another one answers.
ghost use Rattle.std.specs.Prelude.{◌≡◌, IfSome};
ghost use Rattle.tour.specs.Orders.{CanCancel, CanBounce};

use crate::keeper::Keeper;
use lines::Lines;
use orders::order::{DrawnOrder, SentOrder};

impl<'a> Keeper<'a> {
    /// Cancels the order that is out.
    pub(crate) fn take_back(&mut self, lines: &mut Lines<'_>, drawn: DrawnOrder)
        requires { CanCancel self.old.book drawn.order }
    {
        if let Some(_refused) = self.cancel(lines, drawn) {
            unreachable!()
        }
    }

    /// Takes back the order that is out and sent.
    pub(super) fn take_back_sent(&mut self, lines: &mut Lines<'_>, sent: SentOrder)
        requires { CanBounce self.old.book sent.order }
    {
        if let Some(_refused) = self.bounce(lines, sent) {
            unreachable!()
        }
    }

    /// Sends the order that is out.
    pub(super) fn send_out(&mut self, lines: &mut Lines<'_>, drawn: DrawnOrder) -> Option<SentOrder>
        requires { CanCancel self.old.book drawn.order }
        ensures { IfSome result (λ sent. CanBounce self.new.book sent.order) }
    {
        match self.send(lines, drawn) {
            Ok(sent) => Some(sent),
            Err(refused) => {
                self.take_back(lines, refused);
                None
            }
        }
    }

    /// Draws an order, sends it and pays it; one that cannot be paid is taken back.
    pub fn pay(&mut self, lines: &mut Lines<'_>, company: u64) {
        let Some(drawn) = self.draw(lines, company) else {
            return;
        };
        let Some(sent) = self.send_out(lines, drawn) else {
            return;
        };
        if let Some(refused) = self.confirm(lines, sent) {
            self.take_back_sent(lines, refused);
        }
    }

    // What this book answers to a drawn order of another.
    fn try_drawn(&mut self, lines: &mut Lines<'_>, drawn: DrawnOrder) -> Option<DrawnOrder>
        ensures { IfSome result (λ back. back ≡ drawn) }
    {
        let drawn = self.cancel(lines, drawn)?;
        match self.send(lines, drawn) {
            Ok(sent) => {
                self.take_back_sent(lines, sent);
                None
            }
            Err(refused) => Some(refused),
        }
    }

    // What this book answers to a sent order of another.
    fn try_sent(&mut self, lines: &mut Lines<'_>, sent: SentOrder) -> Option<SentOrder>
        ensures { IfSome result (λ back. back ≡ sent) }
    {
        let sent = self.bounce(lines, sent)?;
        self.confirm(lines, sent)
    }

    /// Takes an order of this book to another, drawn and sent, and then takes it back.
    pub fn stray(&mut self, lines: &mut Lines<'_>, other: &mut Keeper<'a>, company: u64) {
        let Some(drawn) = self.draw(lines, company) else {
            return;
        };
        let Some(drawn) = other.try_drawn(lines, drawn) else {
            return;
        };
        let Some(sent) = self.send_out(lines, drawn) else {
            return;
        };
        if let Some(sent) = other.try_sent(lines, sent) {
            self.take_back_sent(lines, sent);
        }
    }
}

// Closing and reopening a company, and the list of those that are closed.
ghost use Rattle.std.specs.Prelude.{◌≡◌};
ghost use Rattle.tour.specs.Orders.{state_of, CanCancel};

use crate::keeper::Keeper;
use lines::{Call, Lines};
use orders::order::DrawnOrder;
use tables::rows::PointRow;

impl<'a> Keeper<'a> {
    pub fn close(&mut self, lines: &mut Lines<'_>, company: u64) {
        let answer = self.book.close(&self.localities, &self.points, company);
        lines.answered(
            Call::new(self.at, "close company", company),
            "balance",
            answer,
        );
    }

    /// Closes company 0 with another table of points.
    pub fn close_with(&mut self, lines: &mut Lines<'_>, points: &[PointRow]) {
        let call = Call::new(
            self.at,
            "close company 0 over a point table of length",
            points.len() as u64,
        );
        let answer = self.book.close(&self.localities, points, 0);
        lines.answered(call, "balance", answer);
    }

    /// Closes while an order of the company is out, which is refused.
    pub(crate) fn close_early(&mut self, lines: &mut Lines<'_>, drawn: &DrawnOrder)
        requires { CanCancel self.old.book drawn.now.order }
        ensures { state_of self.new.book ≡ state_of self.old.book }
    {
        let company = drawn.order().company;
        let answer = self.book.close(&self.localities, &self.points, company);
        lines.refused(
            Call::new(self.at, "close company", company),
            answer.unwrap_err(),
        );
    }

    pub fn reopen(&mut self, lines: &mut Lines<'_>, company: u64) {
        let call = Call::new(self.at, "reopen company", company);
        match self.book.reopen(company) {
            Ok(()) => lines.granted(call, "company", company),
            Err(refusal) => lines.refused(call, refusal),
        }
    }

    /// Lists the closed companies, and tells what stands at the list's last place afterwards.
    pub fn list_closed(&self, lines: &mut Lines<'_>, list: &mut [u64]) {
        let call = Call::new(
            self.at,
            "closed companies in a list of length",
            list.len() as u64,
        );
        let answer = self.book.closed_companies(list);
        lines.answered(call, "companies", answer);
        for company in list.iter().take(answer.unwrap_or(0)) {
            lines.figure(call, "company", *company);
        }
        if let Some(last) = list.last() {
            lines.figure(call, "last place", *last);
        }
    }
}

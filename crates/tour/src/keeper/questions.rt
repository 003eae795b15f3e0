// The questions of a bookkeeper.
use crate::keeper::Keeper;
use lines::{Call, Lines};
use tables::rows::PointRow;
use tables::service::Service;

impl<'a> Keeper<'a> {
    /// What distribution costs in a locality, and what it costs there for each expected point.
    pub fn ask_locality(&self, lines: &mut Lines<'_>, place: u64) {
        let cost = self
            .book
            .capital_cost(&self.localities, place, Service::Distribution);
        let component = self
            .book
            .unit_component(&self.localities, place, Service::Distribution);
        lines.answered(
            Call::new(self.at, "capital cost of distribution in locality", place),
            "cost",
            cost,
        );
        lines.answered(
            Call::new(self.at, "unit component of distribution in locality", place),
            "component",
            component,
        );
    }

    /// How a company stands, and what its year comes to.
    pub fn ask_company(&self, lines: &mut Lines<'_>, company: u64) {
        let call = Call::new(self.at, "standing of company", company);
        match self.book.company(company) {
            Ok(found) => lines.granted(call, "instalments paid", found.paid),
            Err(refusal) => lines.refused(call, refusal),
        }
        let billed = self.book.billed(&self.localities, &self.points, company);
        lines.answered(
            Call::new(self.at, "lines 1 to 4 of company", company),
            "billed",
            billed,
        );
        let call = Call::new(self.at, "points served by company", company);
        match self.book.served(&self.localities, &self.points, company) {
            Ok(served) => lines.granted(call, "in regime", served.regime),
            Err(refusal) => lines.refused(call, refusal),
        }
        let call = Call::new(self.at, "revenue of company", company);
        match self.book.revenue(&self.localities, &self.points, company) {
            Ok(revenue) => lines.granted(call, "revenue", revenue.total()),
            Err(refusal) => lines.refused(call, refusal),
        }
        self.ask_balance(lines, company);
    }

    pub fn ask_balance(&self, lines: &mut Lines<'_>, company: u64) {
        let balance = self
            .book
            .balance_due(&self.localities, &self.points, company);
        lines.answered(
            Call::new(self.at, "balance due to company", company),
            "balance",
            balance,
        );
    }

    pub fn ask_account(&self, lines: &mut Lines<'_>, points: &[PointRow]) {
        let length = points.len() as u64;
        lines.answered(
            Call::new(self.at, "account over a point table of length", length),
            "account",
            self.book.account(points),
        );
    }
}

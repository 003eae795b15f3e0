// What a company's year comes to.
ghost use Rattle.std.specs.Prelude.{◌≡◌, ℕ, pos, neg_ℤ, ◌≤◌, ◌≤ℤ◌, ◌-ℤ◌, ◌<◌, Ok, Err, OnOk, MatchResult};
ghost use Rattle.company.specs.declared.record.Company.{Company};
ghost use Rattle.company.specs.Events.{advances};
ghost use Rattle.revenue.specs.Recognised.{total};
ghost use Rattle.orders.specs.Orders.{close_decision, settled};
ghost use Rattle.opened.specs.Figures.{price_for, settlement, due, closing};

use crate::company_costs::costs_of;
use crate::record::Opened;
use company::record::{Company, Event};
use management::rule::Management;
use revenue::book_tables::Tables;
use revenue::book_tables::outcome::Outcome;
use tables::rows::{LocalityRow, PointRow};
use units::amounts::Cents;
use units::refusal::{Reason, Refusal};

/// What closing a company would book, and what its balances would then come to.
#[derive(Clone, Copy, Debug, PartialEq, Eq)]
pub struct Settlement {
    /// What of the settlement no closing has booked yet.
    pub due: Cents,
    /// In cents.
    pub balances: i64,
}

// What bills and advances leave of a company's recognised revenue, in cents.
pub(crate) fn left_over(year: &Outcome, company: &Company) -> i128
    requires { (total year.now.revenue ≤ 1300000000000000) × (year.now.billed ≤ 13107219714670592) }
    ensures value { result ≡ pos (total year.now.revenue) -ℤ pos year.now.billed -ℤ advances company.now }
    ensures small { (result ≤ℤ pos 20000000000000000) × (neg_ℤ (pos 20000000000000000) ≤ℤ result) }
{
    year.revenue.total().0 - i128::from(year.billed) - company.advances().0
}

impl Opened {
    /// Settles the year of the company at a place, by a management rule.
    pub fn settlement<M: Management>(
        &self,
        rule: &M,
        tables: Tables<'_>,
        place: u64,
        company: &Company,
    ) -> Settlement
        ensures due { result.due
            ≡ due self.now.tariff.figures (price_for (M.Management.price rule.now) company.now)
            tables.entry.localities.now tables.entry.points.now place company.now }
        ensures balances { result.balances
            ≡ settlement self.now.tariff.figures (price_for (M.Management.price rule.now) company.now)
            tables.entry.localities.now tables.entry.points.now place company.now }
    {
        let costs = costs_of(rule, &company.terms);
        let year = tables.outcome(&self.tariff, costs, place);
        let settlement = left_over(&year, company);
        Settlement {
            due: Cents(settlement - i128::from(company.balances)),
            balances: settlement as i64,
        }
    }

    /// What closing a company would book. It is refused by 4 for a table too long and past the sixteen, 5 where none is registered, 9 where it is closed, and 11 while
    /// an order is out.
    pub fn closing<M: Management>(
        &self,
        rule: &M,
        localities: &[LocalityRow],
        points: &[PointRow],
        company: u64,
    ) -> Result<Settlement, Refusal>
        ensures within { OnOk result (company < 16) }
        ensures answer { MatchResult result
            (λ s. (d : Company × ℕ) × (close_decision self.now.register company ≡ Ok d)
            × (closing self.now (M.Management.price rule.now) localities.now points.now company
            ≡ Ok (settled d.0 s.balances, s.due)))
            (λ e. closing self.now (M.Management.price rule.now) localities.now points.now company ≡ Err e) }
    {
        let tables = Tables::new(localities, points).ok_or(Reason::PastTable.at(0))?;
        let number = self.register.number;
        let (found, _) = self.register.meets(number, company, Event::Close)?;
        Ok(self.settlement(rule, tables, company, &found))
    }
}

// The questions that what is on record answers, with the lent tables. A question leaves all as it is.
ghost use Rattle.std.specs.Prelude.{◌≡◌};
ghost use Rattle.limits.specs.Checked.{made_of};
ghost use Rattle.opened.specs.Questions as asked;

use crate::company_costs::costs_of;
use crate::record::Opened;
use calls::asking::asked_locality;
use costs::capital::{capital_cost, unit_component};
use management::rule::Management;
use revenue::parts::Revenue;
use revenue::served::Served;
use tables::rows::{LocalityRow, PointRow};
use tables::service::Service;
use units::amounts::Cents;
use units::refusal::Refusal;

impl Opened {
    /// The capital cost of a service of a locality, in cents.
    pub fn capital_cost(
        &self,
        localities: &[LocalityRow],
        place: u64,
        service: Service,
    ) -> Result<u64, Refusal>
        ensures { result ≡ asked.capital_cost self.now localities.now place service }
    {
        let locality = asked_locality(localities, place)?;
        Ok(capital_cost(&locality, &self.tariff, service))
    }

    /// A service's capital cost for each expected point of a locality, in millionths of a euro.
    pub fn unit_component(
        &self,
        localities: &[LocalityRow],
        place: u64,
        service: Service,
    ) -> Result<u64, Refusal>
        ensures { result ≡ asked.unit_component self.now localities.now place service }
    {
        let locality = asked_locality(localities, place)?;
        unit_component(&locality, &self.tariff, service, place)
    }

    /// Lines 1 to 4 of a company's points, at the volume and days on record.
    pub fn billed(
        &self,
        localities: &[LocalityRow],
        points: &[PointRow],
        company: u64,
    ) -> Result<Cents, Refusal>
        ensures { result ≡ asked.lines_billed self.now localities.now points.now company }
    {
        let (tables, _) = self.asked(localities, points, company)?;
        let billed = tables.sums(&self.tariff, company).billed;
        Ok(Cents(i128::from(billed)))
    }

    /// The points that a company served.
    pub fn served(
        &self,
        localities: &[LocalityRow],
        points: &[PointRow],
        company: u64,
    ) -> Result<Served, Refusal>
        ensures { made_of (λ s. (s.regime.0, s.startup.0)) result
            ≡ asked.served self.now localities.now points.now company }
    {
        let (tables, _) = self.asked(localities, points, company)?;
        Ok(tables.served(&self.tariff, company))
    }

    /// The revenue that is recognised to a company by a management rule, part by part.
    pub fn revenue<M: Management>(
        &self,
        rule: &M,
        localities: &[LocalityRow],
        points: &[PointRow],
        company: u64,
    ) -> Result<Revenue, Refusal>
        ensures { result ≡ asked.revenue self.now (M.Management.price rule.now) localities.now points.now company }
    {
        let (tables, found) = self.asked(localities, points, company)?;
        let costs = costs_of(rule, &found.terms);
        Ok(tables.outcome(&self.tariff, costs, company).revenue)
    }

    /// The balance that is due to a company: what of its settlement no closing has booked yet.
    pub fn balance_due<M: Management>(
        &self,
        rule: &M,
        localities: &[LocalityRow],
        points: &[PointRow],
        company: u64,
    ) -> Result<Cents, Refusal>
        ensures { result ≡ asked.balance_due self.now (M.Management.price rule.now) localities.now points.now company }
    {
        let (tables, found) = self.asked(localities, points, company)?;
        Ok(self.settlement(rule, tables, company, &found).due)
    }
}

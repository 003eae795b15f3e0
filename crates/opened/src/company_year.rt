// What a company's year comes to, found in one pass over each table.
ghost use Rattle.std.specs.Prelude.{◌≡◌};
ghost use Rattle.limits.specs.Checked.{made_of};
ghost use Rattle.opened.specs.Questions as asked;

use crate::company_costs::costs_of;
use crate::record::Opened;
use crate::settlement::left_over;
use company::record::Company;
use management::rule::Management;
use revenue::parts::Revenue;
use revenue::served::Served;
use tables::rows::{LocalityRow, PointRow};
use units::amounts::Cents;
use units::refusal::Refusal;

/// How a company stands, the points that it served, the revenue that is recognised to it, lines 1 to 4 of its points, and the balance that is due.
#[derive(Clone, Copy, Debug)]
pub struct CompanyYear {
    pub company: Company,
    pub served: Served,
    pub revenue: Revenue,
    pub billed: Cents,
    pub due: Cents,
}

impl Opened {
    /// What a company's year comes to by a management rule.
    pub fn company_year<M: Management>(
        &self,
        rule: &M,
        localities: &[LocalityRow],
        points: &[PointRow],
        company: u64,
    ) -> Result<CompanyYear, Refusal>
        ensures { made_of asked.year_told result
            ≡ asked.company_year self.now (M.Management.price rule.now) localities.now points.now company }
    {
        let (tables, found) = self.asked(localities, points, company)?;
        let costs = costs_of(rule, &found.terms);
        let year = tables.outcome(&self.tariff, costs, company);
        Ok(CompanyYear {
            company: found,
            served: year.served,
            revenue: year.revenue,
            billed: Cents(i128::from(year.billed)),
            due: Cents(left_over(&year, &found) - i128::from(found.balances)),
        })
    }
}

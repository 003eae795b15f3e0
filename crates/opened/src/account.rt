// The equalisation account.
ghost use Rattle.std.specs.Prelude.{◌≡◌, pos, neg_ℤ, ◌≤ℤ◌};
ghost use Rattle.rounding.specs.Sums.{sum_z};
ghost use Rattle.opened.specs.Figures.{paid_out, account_of};
ghost use Rattle.opened.specs.Questions as asked;

use crate::record::Opened;
use company::record::Company;
use limits::MOST_COMPANIES;
use revenue::book_tables::Tables;
use tables::rows::PointRow;
use units::amounts::Cents;
use units::refusal::{Reason, Refusal};

impl Opened {
    fn account_with(&self, tables: Tables<'_>) -> Cents
        ensures { result.0 ≡ account_of self.now tables.entry.points.now }
    {
        let gained = i128::from(self.sum) + i128::from(tables.ug1(&self.tariff));
        Cents(gained - all_paid_out(&self.register.companies))
    }

    /// The equalisation account: what it was opened with and line 6 of the points brought, without what was paid out.
    pub fn account(&self, points: &[PointRow]) -> Result<Cents, Refusal>
        ensures { result ≡ asked.account self.now points.now }
    {
        let tables = Tables::new(&[], points).ok_or(Reason::PastTable.at(0))?;
        Ok(self.account_with(tables))
    }
}

// What the account lost to all companies.
fn all_paid_out(companies: &[Option<Company>; MOST_COMPANIES]) -> i128
    ensures value { result ≡ sum_z paid_out companies.now }
    ensures small { (result ≤ℤ pos 295147905179352825856) × (neg_ℤ (pos 295147905179352825856) ≤ℤ result) }
{
    let mut sum = 0;
    for slot in companies {
        sum += paid_out(slot);
    }
    sum
}

// What the account lost to a company.
fn paid_out(slot: &Option<Company>) -> i128
    ensures value { result ≡ paid_out slot.now }
    ensures small { (result ≤ℤ pos 18446744073709551616) × (neg_ℤ (pos 18446744073709551616) ≤ℤ result) }
{
    match slot {
        Some(company) => company.advances().0 + i128::from(company.balances),
        None => 0,
    }
}

// The questions that the book answers. A question leaves all as it is.
ghost use Rattle.std.specs.Prelude.{◌≡◌, length};
ghost use Rattle.std.specs.List.{slice_get};
ghost use Rattle.limits.specs.Checked.{made_of};
ghost use Rattle.book.specs.States.{state};
ghost use Rattle.booklaws.specs.Questions as asked;
ghost use Rattle.opened.specs.Questions.{year_told};

use super::Book;
use crate::on_record::on_record;
use company::record::Company;
use journal::entry::Entry;
use journal::journal::Journal;
use management::rule::Management;
use opened::company_year::CompanyYear;
use revenue::parts::Revenue;
use revenue::served::Served;
use tables::rows::{LocalityRow, PointRow};
use tables::service::Service;
use units::amounts::Cents;
use units::refusal::Refusal;

impl<J: Journal, M: Management> Book<J, M> {
    /// The capital cost of a service of a locality.
    pub fn capital_cost(
        &self,
        localities: &[LocalityRow],
        place: u64,
        service: Service,
    ) -> Result<u64, Refusal>
        ensures { result ≡ asked.capital_cost (state J.Journal M.Management self.now) localities.now place service }
    {
        on_record(&self.opened)?.capital_cost(localities, place, service)
    }

    /// A service's capital cost for each expected point of a locality.
    pub fn unit_component(
        &self,
        localities: &[LocalityRow],
        place: u64,
        service: Service,
    ) -> Result<u64, Refusal>
        ensures { result ≡ asked.unit_component (state J.Journal M.Management self.now) localities.now place service }
    {
        on_record(&self.opened)?.unit_component(localities, place, service)
    }

    /// How the company at a place stands.
    pub fn company(&self, place: u64) -> Result<Company, Refusal>
        ensures { result ≡ asked.company (state J.Journal M.Management self.now) place }
    {
        on_record(&self.opened)?.register.asked(place)
    }

    /// What a company's year comes to: how it stands, the points that it served, its recognised revenue, lines 1 to 4 of its points, and the balance due, all in
    /// one pass over the tables.
    pub fn company_year(
        &self,
        localities: &[LocalityRow],
        points: &[PointRow],
        company: u64,
    ) -> Result<CompanyYear, Refusal>
        ensures { made_of year_told result
            ≡ asked.company_year (state J.Journal M.Management self.now) localities.now points.now company }
    {
        on_record(&self.opened)?.company_year(&self.rule, localities, points, company)
    }

    /// Lines 1 to 4 of a company's points, at the volume and days on record.
    pub fn billed(
        &self,
        localities: &[LocalityRow],
        points: &[PointRow],
        company: u64,
    ) -> Result<Cents, Refusal>
        ensures { result
            ≡ asked.lines_billed (state J.Journal M.Management self.now) localities.now points.now company }
    {
        on_record(&self.opened)?.billed(localities, points, company)
    }

    /// The points that a company served.
    pub fn served(
        &self,
        localities: &[LocalityRow],
        points: &[PointRow],
        company: u64,
    ) -> Result<Served, Refusal>
        ensures { made_of (λ s. (s.regime.0, s.startup.0)) result
            ≡ asked.served (state J.Journal M.Management self.now) localities.now points.now company }
    {
        on_record(&self.opened)?.served(localities, points, company)
    }

    /// The revenue that is recognised to a company, part by part.
    pub fn revenue(
        &self,
        localities: &[LocalityRow],
        points: &[PointRow],
        company: u64,
    ) -> Result<Revenue, Refusal>
        ensures { result ≡ asked.revenue (state J.Journal M.Management self.now) localities.now points.now company }
    {
        on_record(&self.opened)?.revenue(&self.rule, localities, points, company)
    }

    /// The balance that is due to a company: what of its settlement no closing has booked yet.
    pub fn balance_due(
        &self,
        localities: &[LocalityRow],
        points: &[PointRow],
        company: u64,
    ) -> Result<Cents, Refusal>
        ensures { result ≡ asked.balance_due (state J.Journal M.Management self.now) localities.now points.now company }
    {
        on_record(&self.opened)?.balance_due(&self.rule, localities, points, company)
    }

    /// The equalisation account: what it was opened with and line 6 of the points brought, without what was paid out.
    pub fn account(&self, points: &[PointRow]) -> Result<Cents, Refusal>
        ensures { result ≡ asked.account (state J.Journal M.Management self.now) points.now }
    {
        on_record(&self.opened)?.account(points)
    }

    /// How many entries the journal holds.
    pub fn journal_len(&self) -> usize
        ensures { result ≡ length (J.Journal.entries self.now.journal) }
    {
        self.journal.len()
    }

    /// How many entries the journal can hold.
    pub fn journal_capacity(&self) -> usize
        ensures { result ≡ J.Journal.capacity self.now.journal }
    {
        self.journal.capacity()
    }

    /// What the journal holds at a place, counted from 0; nothing behind its last entry.
    pub fn entry(&self, place: usize) -> Option<Entry>
        ensures { result ≡ slice_get (J.Journal.entries self.now.journal) place }
    {
        self.journal.get(place)
    }
}

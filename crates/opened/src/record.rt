// What an opened book has on record, beside its journal and the lent tables.
ghost use Rattle.std.specs.Prelude.{◌≡◌, IfOk};
ghost use Rattle.limits.specs.Checked.{made_of};
ghost use Rattle.opened.specs.Figures.{asked};

use company::record::Company;
use orders::register::Register;
use revenue::book_tables::Tables;
use tables::rows::{LocalityRow, PointRow};
use tariff::table::Tariff;
use units::refusal::{Reason, Refusal};

#[derive(Clone, Copy, Debug, PartialEq, Eq)]
pub struct Opened {
    pub tariff: Tariff,
    /// The account's opening sum, in cents.
    pub sum: i64,
    pub register: Register,
}

impl Opened {
    // The company that is asked about, with the tables.
    pub(crate) fn asked<'a>(
        &self,
        localities: &'a [LocalityRow],
        points: &'a [PointRow],
        company: u64,
    ) -> Result<(Tables<'a>, Company), Refusal>
        ensures answer { made_of (λ x. x.1) result ≡ asked self.now localities.now points.now company (λ c. c) }
        ensures tables { IfOk result (λ x. (x.0.localities.now ≡ localities.now) × (x.0.points.now ≡ points.now)) }
    {
        let tables = Tables::new(localities, points).ok_or(Reason::PastTable.at(0))?;
        let found = self.register.asked(company)?;
        Ok((tables, found))
    }
}

// What a company's year comes to: the points that it served, its recognised revenue, and lines 1 to 4 of its points.
ghost use Rattle.std.specs.Prelude.{◌≡◌, ◌+◌, ◌*◌, ◌≤◌, pos, if◌then◌else◌};
ghost use Rattle.rounding.specs.Nearness.{Near};
ghost use Rattle.rounding.specs.Sums.{count_if};
ghost use Rattle.tables.specs.declared.state.State.TheVariants.{Regime, StartUp};
ghost use Rattle.costs.specs.Costs.{locality_figure};
ghost use Rattle.revenue.specs.Owners.{owns};
ghost use Rattle.revenue.specs.Billed.{billed};
ghost use Rattle.revenue.specs.Served.{served};
ghost use Rattle.revenue.specs.Recognised.{locality_figures, total, recognised, exact_revenue};

use crate::book_tables::Tables;
use crate::company_costs::Costs;
use crate::parts::Revenue;
use crate::served::Served;
use costs::figure::locality_figure;
use tables::rows::{LocalityRow, Row};
use tariff::table::Tariff;

/// What a company's year comes to.
#[derive(Clone, Copy, Debug, PartialEq, Eq)]
pub struct Outcome {
    /// The points that it served.
    pub served: Served,
    /// Its recognised revenue, part by part.
    pub revenue: Revenue,
    /// Lines 1 to 4 of its points, in cents.
    pub billed: u64,
}

// What a row of the locality table adds to a company's revenue.
fn of_locality(tariff: &Tariff, company: u64, row: &LocalityRow) -> u64
    ensures value { result ≡ (if owns company row.now then locality_figure tariff.now.figures row.now else 0) }
    ensures small { result ≤ 5000000000000 }
{
    row.record()
        .filter(|locality| locality.row().company == company)
        .map_or(0, |locality| locality_figure(&locality, tariff))
}

impl<'a> Tables<'a> {
    /// What the localities of a company add to its revenue.
    pub fn locality_figures(self, tariff: &Tariff, company: u64) -> u64
        ensures value { result ≡ locality_figures tariff.now.figures self.entry.localities.now company }
        ensures small { result ≤ 1280000000000000 }
    {
        let mut sum = 0;
        for row in self.localities {
            sum += of_locality(tariff, company, row);
        }
        sum
    }

    // The points that a company served, and lines 1 to 4 of its points: one pass over the points.
    fn served_and_billed(self, tariff: &Tariff, company: u64) -> (Served, u64)
        ensures regime { result.0.regime.0
            ≡ served tariff.now.figures self.entry.localities.now self.entry.points.now company Regime }
        ensures startup { result.0.startup.0
            ≡ served tariff.now.figures self.entry.localities.now self.entry.points.now company StartUp }
        ensures billed { result.1 ≡ billed tariff.now.figures self.entry.localities.now self.entry.points.now company }
        ensures few { result.1 ≤ 13107219714670592 }
    {
        let sums = self.sums(tariff, company);
        let served = Served::of(tariff, sums.regime, sums.startup).unwrap();
        (served, sums.billed)
    }

    /// The points that a company served, by the state of their localities.
    pub fn served(self, tariff: &Tariff, company: u64) -> Served
        ensures regime { result.regime.0
            ≡ served tariff.now.figures self.entry.localities.now self.entry.points.now company Regime }
        ensures startup { result.startup.0
            ≡ served tariff.now.figures self.entry.localities.now self.entry.points.now company StartUp }
    {
        self.served_and_billed(tariff, company).0
    }

    /// What a company's year comes to, in one pass over each table. Its recognised revenue is near its exact value by 12 halves of a cent for
    /// each of the company's localities and 4 for itself.
    pub fn outcome(self, tariff: &Tariff, costs: Costs, company: u64) -> Outcome
        ensures regime { result.served.regime.0
            ≡ served tariff.now.figures self.entry.localities.now self.entry.points.now company Regime }
        ensures startup { result.served.startup.0
            ≡ served tariff.now.figures self.entry.localities.now self.entry.points.now company StartUp }
        ensures revenue { result.revenue
            ≡ recognised tariff.now.figures costs.operating.0 costs.verification costs.central
            self.entry.localities.now self.entry.points.now company }
        ensures billed { result.billed
            ≡ billed tariff.now.figures self.entry.localities.now self.entry.points.now company }
        ensures near { Near
            (exact_revenue tariff.now.figures costs.operating.0 costs.verification costs.central
            self.entry.localities.now self.entry.points.now company)
            (pos (total result.revenue)) (12 * count_if (owns company) self.entry.localities.now + 4) }
        ensures small { (total result.revenue ≤ 1300000000000000) × (result.billed ≤ 13107219714670592) }
    {
        let added = self.locality_figures(tariff, company);
        let (served, billed) = self.served_and_billed(tariff, company);
        Outcome {
            served,
            revenue: served.revenue(tariff, costs, added),
            billed,
        }
    }
}

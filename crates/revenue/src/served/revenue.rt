// The parts of recognised revenue by the points that were served.
ghost use Rattle.std.specs.Prelude.{◌≡◌, ◌+◌, ◌≤◌};
ghost use Rattle.rounding.specs.Rounding.{rounded};
ghost use Rattle.revenue.specs.Recognised.{exact_for_points, parts_at, total};

use crate::company_costs::Costs;
use crate::parts::Revenue;
use crate::served::Served;
use tariff::table::Tariff;
use units::amounts::{MilliPoints, PointPrice};

// A price for thousandths of points, in cents. `costs` has one for whole points: a shared one would be public, and could not require its bounds.
fn for_points(price: PointPrice, points: MilliPoints) -> u64
    requires price { price.0 ≤ 2000000000 }
    requires points { points.0 ≤ 262930432 }
    ensures value { result ≡ rounded (exact_for_points price.0 points.0) }
    ensures small { result ≤ 100000000000 }
{
    rounding::round_half_up(price.0 * points.0, 10_000_000)
}

impl Served {
    /// The parts of the revenue of a company that served these points, to which its localities add so many cents.
    pub fn revenue(self, tariff: &Tariff, costs: Costs, added: u64) -> Revenue
        ensures value { result
            ≡ parts_at tariff.now.figures costs.operating.0 costs.verification costs.central added self.regime.0
            self.startup.0 }
        ensures small { total result ≤ added + 2400000000000 }
    {
        let both = MilliPoints(self.regime.0 + self.startup.0);
        let t = tariff.figures();
        Revenue {
            localities: added,
            operating: for_points(costs.operating, self.regime),
            startup: for_points(t.avv, self.startup),
            readings: for_points(PointPrice(t.ins.0 + t.rac.0), both),
            commercial: for_points(t.commercial, both),
            verification: costs.verification,
            central: costs.central,
        }
    }
}

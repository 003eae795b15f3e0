// What a locality in regime adds to its capital costs.
ghost use Rattle.std.specs.Prelude.{◌≡◌, ◌*◌, ◌≤◌};
ghost use Rattle.rounding.specs.Frac.{over};
ghost use Rattle.rounding.specs.Rounding.{rounded};
ghost use Rattle.costs.specs.Costs.{exact_fees, exact_remote_reading, additions};

use tables::locality::Locality;
use tables::state::State;
use tariff::table::Tariff;
use units::amounts::PointPrice;

// A price for each of some points, in cents. `revenue` has one for thousandths of points: a shared one would be public, and could not require its bounds.
fn for_points(price: PointPrice, points: u64) -> u64
    requires cheap { price.0 ≤ 2000000000 }
    requires few { points ≤ 10000000 }
    ensures value { result ≡ rounded (over (price.0 * points) 10000) }
    ensures small { result ≤ 2000000000000 }
{
    rounding::round_half_up(price.0 * points, 10_000)
}

// cou and coa for each expected point.
fn fees(locality: &Locality, tariff: &Tariff) -> u64
    ensures value { result ≡ rounded (exact_fees tariff.now.figures locality.now.row) }
    ensures small { result ≤ 2000000000000 }
{
    let t = tariff.figures();
    for_points(PointPrice(t.cou.0 + t.coa.0), locality.as_row().expected)
}

// telcon for each smart point.
fn remote_reading(locality: &Locality, tariff: &Tariff) -> u64
    ensures value { result ≡ rounded (exact_remote_reading tariff.now.figures locality.now.row) }
    ensures small { result ≤ 2000000000000 }
{
    let t = tariff.figures();
    for_points(t.telcon, locality.as_row().smart)
}

/// What a locality in regime adds: the two fees cou and coa, and remote reading.
pub fn additions(locality: &Locality, tariff: &Tariff) -> u64
    ensures value { result ≡ additions tariff.now.figures locality.now.row }
    ensures small { result ≤ 4000000000000 }
{
    match locality.state() {
        State::Regime => fees(locality, tariff) + remote_reading(locality, tariff),
        State::StartUp => 0,
    }
}

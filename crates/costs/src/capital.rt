// What the services of a locality cost by their assets. The bound of a capital cost stays a clause, since it is answered as a plain number.
ghost use Rattle.std.specs.Prelude.{◌≡◌, ◌≤◌, length};
ghost use Rattle.tables.specs.Services.{of_service, row_count};
ghost use Rattle.costs.specs.Costs.{capital_cost, unit_component};

use crate::assets::Assets;
use tables::locality::Locality;
use tables::service::Service;
use tariff::table::Tariff;
use units::refusal::{Reason, Refusal};

fn assets_of(locality: &Locality, service: Service) -> Assets
    ensures value { result.rows.now ≡ of_service service locality.now.row.rows }
    ensures len { length result.rows.now ≡ row_count service }
{
    Assets {
        rows: service.part(&locality.as_row().rows),
    }
}

/// The capital cost of a service of a locality.
pub fn capital_cost(locality: &Locality, tariff: &Tariff, service: Service) -> u64
    ensures value { result ≡ capital_cost tariff.now.figures service locality.now.row }
    ensures small { result ≤ 112256000000 }
{
    let t = tariff.figures();
    let assets = assets_of(locality, service);
    assets.return_at(t.rate) + assets.depreciation(service.part(&t.lives))
}

/// A service's capital cost for each expected point, in millionths of a euro; refused by 17 without expected points.
pub fn unit_component(
    locality: &Locality,
    tariff: &Tariff,
    service: Service,
    place: u64,
) -> Result<u64, Refusal>
    ensures { result ≡ unit_component tariff.now.figures service locality.now.row place }
{
    let expected = locality.as_row().expected;
    if expected == 0 {
        return Err(Reason::NoExpectedPoints.at(place));
    }
    Ok(rounding::round_half_up(capital_cost(locality, tariff, service) * 10_000, expected))
}

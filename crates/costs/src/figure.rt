// What a locality adds to recognised revenue.
ghost use Rattle.std.specs.Prelude.{◌≡◌, ◌≤◌, pos};
ghost use Rattle.rounding.specs.Nearness.{Near};
ghost use Rattle.costs.specs.Costs.{locality_figure, exact_locality_figure};

use crate::capital::capital_cost;
use crate::regime::additions;
use tables::locality::Locality;
use tables::service::Service;
use tariff::table::Tariff;

/// What the locality adds to recognised revenue: at most twelve halves of a cent from its exact value.
pub fn locality_figure(locality: &Locality, tariff: &Tariff) -> u64
    ensures value { result ≡ locality_figure tariff.now.figures locality.now.row }
    ensures small { result ≤ 5000000000000 }
    ensures near { Near (exact_locality_figure tariff.now.figures locality.now.row) (pos result) 12 }
{
    capital_cost(locality, tariff, Service::Distribution)
        + capital_cost(locality, tariff, Service::Metering)
        + additions(locality, tariff)
}

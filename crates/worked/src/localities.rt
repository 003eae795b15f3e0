// Costs of localities, against a table of them.
use crate::compare::Tally;
use crate::numbers::Numbers;
use crate::tariffs::compare_by_tariff;
use anyhow::Context;
use costs::capital::{capital_cost, unit_component};
use costs::figure::locality_figure;
use std::array;
use tables::locality::Locality;
use tables::rows::{AssetRow, LocalityRow, Row};
use tables::service::Service;
use tariff::table::Tariff;

fn asset_row(numbers: &mut Numbers<u64>) -> AssetRow {
    AssetRow {
        gross: numbers.take(),
        net: numbers.take(),
        works: numbers.take(),
        contributions: numbers.take(),
        remaining: numbers.take(),
    }
}

fn locality(numbers: &mut Numbers<u64>) -> anyhow::Result<Locality> {
    let row = LocalityRow {
        company: 0,
        state: numbers.take(),
        area: 1,
        expected: numbers.take(),
        smart: numbers.take(),
        rows: array::from_fn(|_| asset_row(numbers)),
    };
    row.record().context("a locality beyond its limits")
}

// The unit component; where it is refused, the number of the refusal, as the table has it.
fn component(locality: &Locality, table: &Tariff, service: Service) -> u64 {
    match unit_component(locality, table, service, 0) {
        Ok(component) => component,
        Err(refusal) => u64::from(refusal.number()),
    }
}

fn compare_line(
    tally: &mut Tally<'_>,
    table: anyhow::Result<&Tariff>,
    numbers: &mut Numbers<u64>,
) -> anyhow::Result<()> {
    let table = table?;
    let locality = locality(numbers)?;
    for (what, found) in [
        (
            "distribution cost",
            capital_cost(&locality, table, Service::Distribution),
        ),
        (
            "metering cost",
            capital_cost(&locality, table, Service::Metering),
        ),
        (
            "distribution component",
            component(&locality, table, Service::Distribution),
        ),
        (
            "metering component",
            component(&locality, table, Service::Metering),
        ),
        ("locality", locality_figure(&locality, table)),
    ] {
        tally.compare(what, found, numbers.take())?;
    }
    Ok(())
}

pub fn run(rt: &HostRuntime) -> anyhow::Result<()> {
    compare_by_tariff(rt, "localities.txt", compare_line)
}

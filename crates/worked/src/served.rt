// Served points and the revenue by them, against a table of them.
use crate::compare::Tally;
use crate::numbers::Numbers;
use crate::tariffs::compare_by_tariff;
use anyhow::Context;
use revenue::company_costs::Costs;
use revenue::served::Served;
use tariff::table::Tariff;
use units::amounts::PointPrice;

fn served(numbers: &mut Numbers<u64>, table: &Tariff) -> anyhow::Result<Served> {
    Served::of(table, numbers.take(), numbers.take()).context(
        "more served points than a book can have",
    )
}

// The operating price alone: verification and central cost are none.
fn costs(numbers: &mut Numbers<u64>) -> anyhow::Result<Costs> {
    Costs::new(PointPrice(numbers.take()), 0, 0).context("an operating price beyond its limit")
}

fn compare_line(
    tally: &mut Tally<'_>,
    table: anyhow::Result<&Tariff>,
    numbers: &mut Numbers<u64>,
) -> anyhow::Result<()> {
    let table = table?;
    let served = served(numbers, table)?;
    let found = served.revenue(table, costs(numbers)?, 0);
    for (what, figure) in [
        ("served in regime", served.regime.0),
        ("served in start-up", served.startup.0),
        ("operating", found.operating),
        ("start-up", found.startup),
        ("readings", found.readings),
        ("commercial", found.commercial),
    ] {
        tally.compare(what, figure, numbers.take())?;
    }
    Ok(())
}

pub fn run(rt: &HostRuntime) -> anyhow::Result<()> {
    compare_by_tariff(rt, "served.txt", compare_line)
}

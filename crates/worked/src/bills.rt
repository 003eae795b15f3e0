// Amounts of the six lines, against a table of them.
use crate::compare::Tally;
use crate::numbers::Numbers;
use crate::tariffs::{compare_by_tariff, tariffs};
use anyhow::Context;
use tariff::supply::{Change, Reading, Supply};
use tariff::table::Tariff;

// The table has 1 for a domestic customer.
fn supply(numbers: &mut Numbers<u64>) -> anyhow::Result<Supply> {
    Supply::new(numbers.take(), numbers.take(), numbers.take() == 1).context(
        "an area or class beyond its limits",
    )
}

fn reading(numbers: &mut Numbers<u64>) -> anyhow::Result<Reading> {
    Reading::new(numbers.take(), numbers.take()).context("a volume or days beyond their limits")
}

fn compare_line(
    tally: &mut Tally<'_>,
    table: anyhow::Result<&Tariff>,
    numbers: &mut Numbers<u64>,
) -> anyhow::Result<()> {
    let (supply, reading) = (supply(numbers)?, reading(numbers)?);
    let found = table?.amounts(supply, reading);
    for (what, amount) in [
        ("distribution", found.distribution),
        ("metering", found.metering),
        ("commercial", found.commercial),
        ("variable", found.variable),
        ("gs", found.gs),
        ("ug1", found.ug1),
    ] {
        tally.compare(what, amount, numbers.take())?;
    }
    Ok(())
}

pub fn run(rt: &HostRuntime) -> anyhow::Result<()> {
    compare_by_tariff(rt, "lines.txt", compare_line)
}

/// In a year of 365 days a bill may bring 365 days, and not 366.
pub fn boundaries(rt: &HostRuntime) -> anyhow::Result<()> {
    let tables = tariffs(rt)?;
    let table = tables.get(0).context("no tariff table")?;
    let supply = supply(&mut Numbers::of(rt.alloc(), "1 1 0")?)?;
    let start = reading(&mut Numbers::of(rt.alloc(), "0 0")?)?;
    for days in [365, 366] {
        match table.bill(supply, start, Change { volume: 0, days }) {
            Ok(bill) => println!(rt; "{days} days: {} cents", bill.charge.tariff)?,
            Err(reason) => println!(rt; "{days} days: refusal {}", reason.number())?,
        }
    }
    Ok(())
}
